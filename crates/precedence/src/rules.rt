// Precedence rules, which are orderings of grounds.
ghost use Rattle.order.proofs.Orderings.{by_higher, by_turns};
ghost use Rattle.precedence.specs.Grounds.{kind_number};
ghost use Rattle.precedence.specs.Rules.{by_priority, by_kind};

use crate::grounds::Ground;
use order::ordering::Ordering;
use order::standing::{Standing, higher_first};

// The higher priority is ahead.
#[derive(Clone, Copy, Debug, Default, PartialEq, Eq)]
pub struct Plain;

impl Ordering for Plain {
    type Item = Ground;

    ghost standing = { λ _ a b. by_priority a b };

    ghost laws = { by_higher (λ g. g.priority) };

    fn compare(&self, a: &Ground, b: &Ground) -> Standing {
        higher_first(a.priority.into(), b.priority.into())
    }
}

// The higher kind is ahead, and of one kind the higher priority.
#[derive(Clone, Copy, Debug, Default, PartialEq, Eq)]
pub struct Urgent;

impl Ordering for Urgent {
    type Item = Ground;

    ghost standing = { λ _ a b. by_kind a b };

    ghost laws = { by_turns _ _ (by_higher (λ g. kind_number g.kind)) (by_higher (λ g. g.priority)) };

    fn compare(&self, a: &Ground, b: &Ground) -> Standing {
        let by_kind = higher_first(u8::from(a.kind).into(), u8::from(b.kind).into());
        by_kind.then(Plain.compare(a, b))
    }
}
