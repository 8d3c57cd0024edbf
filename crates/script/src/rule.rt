// The precedence rules that a script may name.
ghost use Rattle.std.specs.Prelude.{◌≡◌, ℕ, ◌/◌, ◌<◌, slice_index};
ghost use Rattle.script.specs.Rules.{standing_of, laws_of_named};

use order::ordering::Ordering;
use order::standing::Standing;
use precedence::grading::{GradeTable, Graded};
use precedence::grounds::Ground;
use precedence::rules::{Plain, Urgent};

// The rule of a call, chosen by its name. It stays an enum that is itself an ordering: a call is handled under one rule
// of one type, and an enum needs no heap and no `dyn`.
#[derive(Clone, Copy, Debug, PartialEq, Eq)]
pub enum NamedRule {
    Plain(Plain),
    Urgent(Urgent),
    Graded(Graded<Plain>),
}

impl Ordering for NamedRule {
    type Item = Ground;

    ghost standing = { λ o a b. standing_of o a b };

    ghost laws = { laws_of_named };

    fn compare(&self, a: &Ground, b: &Ground) -> Standing {
        match self {
            NamedRule::Plain(rule) => rule.compare(a, b),
            NamedRule::Urgent(rule) => rule.compare(a, b),
            NamedRule::Graded(rule) => rule.compare(a, b),
        }
    }
}

// The grade of a priority is its sixteenth, without the rest.
pub fn sixteenths() -> GradeTable
    ensures grades { (k : ℕ) → k < 256 → slice_index result.grades k ≡ k / 16 }
{
    GradeTable {
        grades: sixteenth_of_each(),
    }
}

// A function of its own, so that the public one needs no file of its proof.
fn sixteenth_of_each() -> [u8; 256]
    ensures grades { (k : ℕ) → k < 256 → slice_index result k ≡ k / 16 }
{
    std::array::from_fn(sixteenth)
}

// The whole part of the sixteenth.
fn sixteenth(priority: usize) -> u8
    requires { priority < 256 }
    ensures value { result ≡ priority / 16 }
{
    (priority / 16) as u8
}
