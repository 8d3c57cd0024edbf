// How one thing stands to another: the reply of every ordering.
ghost use Rattle.std.specs.Prelude.{◌≡◌};
ghost use Rattle.order.specs.Standings.{not_behind, in_turn, higher_first};

use std::cmp;

// Not `std::cmp::Ordering`, whose `Less` and `Greater` would have to be read as ahead or behind at each place.
#[derive(Clone, Copy, Debug, PartialEq, Eq)]
pub enum Standing {
    Ahead,
    Level,
    Behind,
}

impl Standing {
    // Whether the one is ahead of the other or level with it.
    pub fn not_behind(self) -> bool
        ensures test { result ≡ not_behind self }
    {
        self != Standing::Behind
    }

    // This standing, and where it is level the next: what the library's `then` is to its order, for this enum.
    pub fn then(self, next: Standing) -> Standing
        ensures value { result ≡ in_turn self next }
    {
        match self {
            Standing::Level => next,
            Standing::Ahead | Standing::Behind => self,
        }
    }
}

// The higher number is ahead.
pub fn higher_first(a: u32, b: u32) -> Standing
    ensures value { result ≡ higher_first a b }
{
    match a.cmp(&b) {
        cmp::Ordering::Greater => Standing::Ahead,
        cmp::Ordering::Equal => Standing::Level,
        cmp::Ordering::Less => Standing::Behind,
    }
}
