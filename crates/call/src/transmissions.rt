// Grants, promotions and endings.
ghost use Rattle.std.specs.Prelude.{◌≡◌, ◌+◌, ◌<◌, find, length};
ghost use Rattle.model.specs.Lookups.{numbered};
ghost use Rattle.model.specs.Transmissions.{next_grant, grant_to, promote_first, close_grant, end_of};
ghost use Rattle.call.specs.View.{as_lists, view};

use crate::finding::drop_first;
use crate::tables::Call;
use model::acts::{Act, Acts, Granted};
use model::causes::EndCause;
use model::lookup::{OfGrant, first_with};
use model::register::Row;
use model::tables::Transmission;
use precedence::alarms::AlarmKind;
use precedence::claims::Claim;

impl Call {
    // Opens the next row and sets a talk alarm.
    pub(crate) fn grant(&mut self, register: &mut [Row], claim: Claim) -> Granted
        requires { self.old.grants + length (as_lists self.old).claims < self.old.settings.rows }
        ensures state { view self.new register.new ≡ grant_to (view self.old register.old) claim.camera claim.ground }
        ensures given { result ≡ next_grant (as_lists self.old) claim.camera }
    {
        let Claim { camera, ground } = claim;
        let number = self.grants + 1;
        let seconds = self.settings.talk;
        self.open_row(register, number, claim);
        self.grants = number;
        self.open.append(Transmission {
            number,
            camera,
            ground,
            recall: None,
        });
        self.set_alarm(number, AlarmKind::Talk, seconds);
        Granted {
            number,
            camera,
            seconds,
        }
    }

    // If a claim waits, the first leaves the line and is granted.
    fn promote(&mut self, register: &mut [Row]) -> Option<Granted>
        ensures state { view self.new register.new ≡ (promote_first (view self.old register.old)).0 }
        ensures given { result ≡ (promote_first (view self.old register.old)).1 }
    {
        let claim = self.claims.first()?;
        self.claims.remove(0);
        Some(self.grant(register, claim))
    }

    // Closes the row and drops the alarm, then promotes.
    pub(crate) fn end(
        &mut self,
        register: &mut [Row],
        transmission: Transmission,
        cause: EndCause,
    ) -> Acts
        ensures state { view self.new register.new ≡ (end_of (view self.old register.old) transmission cause).0 }
        ensures acts { result ≡ (end_of (view self.old register.old) transmission cause).1 }
    {
        let number = transmission.number;
        self.close(register, number, cause);
        let ended = Act::Ended {
            number,
            camera: transmission.camera,
            cause,
        };
        match self.promote(register) {
            None => Acts::One { first: ended },
            Some(granted) => Acts::Three {
                first: ended,
                second: granted.grant(),
                third: granted.notify(),
            },
        }
    }

    // Closes the row of a grant, and drops its transmission and its alarm.
    fn close(&mut self, register: &mut [Row], number: u16, cause: EndCause)
        ensures state { view self.new register.new ≡ close_grant (view self.old register.old) number cause }
    {
        self.close_row(register, number, cause);
        drop_first(&mut self.open, &OfGrant(number));
        self.drop_alarm(number);
    }

    // The open transmission of a grant, if it is open.
    pub(crate) fn transmission(&self, number: u16) -> Option<Transmission>
        ensures item { result ≡ find (numbered number) (as_lists self.now).transmissions }
    {
        first_with(self.open.all(), &OfGrant(number))
    }
}
