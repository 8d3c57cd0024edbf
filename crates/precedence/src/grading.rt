// Grading over any precedence rule: a table puts a grade in each priority's place, and the rule below compares.
ghost use Rattle.std.specs.Prelude.{◌≡◌};
ghost use Rattle.order.proofs.Orderings.{along};
ghost use Rattle.precedence.specs.Rules.{regraded};

use crate::grounds::Ground;
use order::ordering::Ordering;
use order::standing::Standing;

// The grade of each priority.
#[derive(Clone, Copy, Debug, PartialEq, Eq)]
pub struct GradeTable {
    pub grades: [u8; 256],
}

impl GradeTable {
    // The ground with its grade in the place of its priority.
    pub fn regrade(&self, ground: &Ground) -> Ground
        ensures value { result ≡ regraded self.now ground.now }
    {
        Ground {
            priority: self.grades[usize::from(ground.priority)],
            ..*ground
        }
    }
}

#[derive(Clone, Copy, Debug, PartialEq, Eq)]
pub struct Graded<R> {
    pub below: R,
    pub table: GradeTable,
}

impl<R: Ordering<Item = Ground>> Ordering for Graded<R> {
    type Item = Ground;

    ghost standing = { λ o a b. R.Ordering.standing o.below (regraded o.table a) (regraded o.table b) };

    ghost laws = { along R.Ordering.standing R.Ordering.laws (λ o. o.below) (λ o a. regraded o.table a) };

    fn compare(&self, a: &Ground, b: &Ground) -> Standing {
        self.below
            .compare(&self.table.regrade(a), &self.table.regrade(b))
    }
}
