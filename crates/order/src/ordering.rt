// What can be compared, and the two laws that every comparison owes.
ghost use Rattle.std.specs.Prelude.{◌≡◌};
ghost use Rattle.order.specs.declared.standing.Standing.{Standing};
ghost use Rattle.order.specs.Laws.{Laws};

use crate::standing::Standing;

// An ordering of things of one kind, `Item`. Its meaning is `standing`, its reply for each pair. Comparing
// alters nothing and never refuses.
pub trait Ordering {
    type Item;

    ghost standing: { Self → Self.Item → Self.Item → Standing };

    // Each `impl` proves the two laws of its own replies.
    ghost laws: { Laws standing };

    fn compare(&self, a: &Self::Item, b: &Self::Item) -> Standing
        ensures stands { result ≡ standing self.now a.now b.now };
}
