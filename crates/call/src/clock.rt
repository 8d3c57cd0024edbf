// The clock, which stops at each alarm.
ghost use Rattle.std.specs.Prelude.{◌≡◌, ◌≤◌};
ghost use Rattle.model.specs.Clock.{clock_to, reach_second, stop_at, expire_alarm, act_by};
ghost use Rattle.call.specs.View.{as_lists, view};

use crate::answers::accepted;
use crate::tables::{Call, LAST_SECOND};
use model::acts::{Acts, Reply};
use model::causes::{EndCause, RecallCause};
use model::refusals::Refusal;
use model::register::Row;
use model::tables::Transmission;
use precedence::alarms::{Alarm, AlarmKind};

impl Call {
    // If the first alarm is due, the clock moves to its second and that alarm alone acts.
    pub(crate) fn clock_to(&mut self, register: &mut [Row], to: u32) -> Result<Reply, Refusal>
        ensures state { view self.new register.new ≡ (clock_to (view self.old register.old) to).0 }
        ensures answer { result ≡ (clock_to (view self.old register.old) to).1 }
    {
        if to < self.clock {
            return Err(Refusal::ClockBack);
        }
        if to > LAST_SECOND {
            return Err(Refusal::ClockBeyond);
        }
        match self.alarms.first() {
            Some(alarm) if alarm.due <= to => self.stop_at(register, alarm),
            Some(_) | None => self.reach(to),
        }
    }

    // The clock moves all the way.
    fn reach(&mut self, to: u32) -> Result<Reply, Refusal>
        requires { to ≤ 4000000000 }
        ensures lists { as_lists self.new ≡ (reach_second (as_lists self.old) to).0 }
        ensures answer { result ≡ (reach_second (as_lists self.old) to).1 }
    {
        self.clock = to;
        accepted(Acts::Zero)
    }

    // The clock moves to the alarm's due second. It never goes back, also for an alarm that is overdue.
    fn stop_at(&mut self, register: &mut [Row], alarm: Alarm) -> Result<Reply, Refusal>
        requires { alarm.due ≤ 4000000000 }
        ensures state { view self.new register.new ≡ (stop_at (view self.old register.old) alarm).0 }
        ensures answer { result ≡ (stop_at (view self.old register.old) alarm).1 }
    {
        self.clock = self.clock.max(alarm.due);
        let acts = self.expire(register, alarm);
        Ok(Reply { more: true, acts })
    }

    // The alarm acts.
    fn expire(&mut self, register: &mut [Row], alarm: Alarm) -> Acts
        ensures state { view self.new register.new ≡ (expire_alarm (view self.old register.old) alarm).0 }
        ensures acts { result ≡ (expire_alarm (view self.old register.old) alarm).1 }
    {
        match self.transmission(alarm.grant) {
            Some(transmission) => self.act(register, transmission, alarm.kind),
            // An alarm of no open transmission is dropped without an act.
            None => {
                self.drop_alarm(alarm.grant);
                Acts::Zero
            }
        }
    }

    // A talk alarm recalls, a grace alarm ends. The kind is data: a function in its place would need a box in a table.
    fn act(&mut self, register: &mut [Row], transmission: Transmission, kind: AlarmKind) -> Acts
        ensures state { view self.new register.new ≡ (act_by (view self.old register.old) transmission kind).0 }
        ensures acts { result ≡ (act_by (view self.old register.old) transmission kind).1 }
    {
        match kind {
            AlarmKind::Talk => Acts::One {
                first: self.recall(transmission, RecallCause::TimeOut),
            },
            AlarmKind::Grace => self.end(register, transmission, EndCause::TimeOut),
        }
    }
}
