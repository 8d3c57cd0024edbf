// Recalls: a transmission under recall has a grace alarm in the place of its talk alarm.
ghost use Rattle.std.specs.Prelude.{◌≡◌};
ghost use Rattle.model.specs.Lookups.{numbered};
ghost use Rattle.model.specs.State.{with_transmissions};
ghost use Rattle.model.specs.Transmissions.{recalled_for, recall_of, revoke_act};
ghost use Rattle.model.specs.Words.{change_first};
ghost use Rattle.call.specs.View.{as_lists};

use crate::tables::Call;
use model::acts::Act;
use model::causes::RecallCause;
use model::lookup::{OfGrant, index_of_first};
use model::tables::Transmission;
use precedence::alarms::AlarmKind;

impl Call {
    // The transmission is under recall, with a grace alarm in the place of its talk alarm.
    pub(crate) fn recall(&mut self, transmission: Transmission, cause: RecallCause) -> Act
        ensures lists { as_lists self.new ≡ recall_of (as_lists self.old) transmission cause }
        ensures act { result ≡ revoke_act transmission cause }
    {
        let number = transmission.number;
        self.mark_recalled(number, cause);
        self.drop_alarm(number);
        self.set_alarm(number, AlarmKind::Grace, self.settings.grace);
        Act::Revoke {
            number,
            camera: transmission.camera,
            cause,
        }
    }

    // Of the transmission only this changes, that it is under recall.
    fn mark_recalled(&mut self, number: u16, cause: RecallCause)
        ensures lists { as_lists self.new ≡ with_transmissions (as_lists self.old) (change_first (numbered number) (recalled_for cause) (as_lists self.old).transmissions) }
    {
        let open = self.open.all();
        if let Some(index) = index_of_first(open, &OfGrant(number)) {
            let recall = Some(cause);
            let recalled = Transmission {
                recall,
                ..open[index]
            };
            self.open.put(index, recalled);
        }
    }
}
