// Alarms, the timers of open transmissions, and their ordering by due second.
ghost use Rattle.order.proofs.Orderings.{by_lower};
ghost use Rattle.precedence.specs.Rules.{by_due};

use order::ordering::Ordering;
use order::standing::{Standing, higher_first};

// What an alarm limits: the time to talk, or the grace after a recall.
#[derive(Clone, Copy, Debug, Default, PartialEq, Eq)]
pub enum AlarmKind {
    #[default]
    Talk,
    Grace,
}

// A timer that is due at a second, for the grant of a number.
#[derive(Clone, Copy, Debug, Default, PartialEq, Eq)]
pub struct Alarm {
    pub due: u32,
    pub grant: u16,
    pub kind: AlarmKind,
}

// The earlier is ahead.
#[derive(Clone, Copy, Debug, Default, PartialEq, Eq)]
pub struct ByDue;

impl Ordering for ByDue {
    type Item = Alarm;

    ghost standing = { λ _ a b. by_due a b };

    ghost laws = { by_lower (λ a. a.due) };

    fn compare(&self, a: &Alarm, b: &Alarm) -> Standing {
        higher_first(b.due, a.due)
    }
}
