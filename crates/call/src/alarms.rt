// The alarms of the open transmissions.
ghost use Rattle.std.specs.Prelude.{◌≡◌, find};
ghost use Rattle.model.specs.Transmissions.{set_alarm, drop_alarm};
ghost use Rattle.model.specs.Requests.{until_due};
ghost use Rattle.model.specs.Lookups.{alarm_of};
ghost use Rattle.call.specs.View.{as_lists};

use crate::finding::drop_first;
use crate::tables::Call;
use model::lookup::{OfGrant, first_with};
use precedence::alarms::{Alarm, AlarmKind, ByDue};

impl Call {
    // Sets an alarm so many seconds on.
    pub(crate) fn set_alarm(&mut self, number: u16, kind: AlarmKind, seconds: u16)
        ensures lists { as_lists self.new ≡ set_alarm (as_lists self.old) number kind seconds }
    {
        let due = self.clock + u32::from(seconds);
        let alarm = Alarm {
            due,
            grant: number,
            kind,
        };
        self.alarms.join(&ByDue, alarm);
    }

    pub(crate) fn drop_alarm(&mut self, number: u16)
        ensures lists { as_lists self.new ≡ drop_alarm (as_lists self.old) number }
    {
        drop_first(&mut self.alarms, &OfGrant(number));
    }

    // How many seconds a transmission has left.
    pub(crate) fn seconds_left(&self, number: u16) -> u32
        ensures value { result ≡ until_due self.now.clock (find (alarm_of number) (as_lists self.now).alarms) }
    {
        first_with(self.alarms.all(), &OfGrant(number)).map_or(
            0,
            |alarm| alarm.due.saturating_sub(self.clock),
        )
    }
}
