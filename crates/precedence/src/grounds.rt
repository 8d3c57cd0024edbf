// What a camera asks on: a kind and a priority.
ghost use Rattle.std.specs.Prelude.{◌≡◌, ◌++◌, Some, codes, decimal};
ghost use Rattle.std.specs.Option.{ok_or};
ghost use Rattle.precedence.specs.Grounds.{kind_number, kind_of};

use std::error::Error;
use std::fmt;

// The kind of a request.
#[derive(Clone, Copy, Debug, Default, PartialEq, Eq)]
pub enum Kind {
    #[default]
    Normal = 0,
    ImminentPeril = 1,
    Emergency = 2,
}

// A number that is no kind's. It has a type, so that it has its own text and becomes its own refusal by `?`; one for
// all numbers would be no plainer.
#[derive(Clone, Copy, Debug, PartialEq, Eq)]
pub struct UnknownKind(pub u8);

impl TryFrom<u8> for Kind {
    type Error = UnknownKind;

    // The kind with the number, if there is one.
    ghost try_from_gives = { λ number r. r ≡ ok_or (kind_of number) (record { 0 = number }) };

    fn try_from(number: u8) -> Result<Self, UnknownKind> {
        match number {
            0 => Ok(Kind::Normal),
            1 => Ok(Kind::ImminentPeril),
            2 => Ok(Kind::Emergency),
            _ => Err(UnknownKind(number)),
        }
    }
}

impl From<Kind> for u8 {
    // Its number, by which the kind is found again.
    ghost from_gives = { λ kind number. (number ≡ kind_number kind) × (kind_of number ≡ Some kind) };

    fn from(kind: Kind) -> Self {
        kind as u8
    }
}

impl fmt::Display for UnknownKind {
    ghost output = { λ unknown. Some (codes "no kind has number " ++ decimal unknown.0) };

    fn fmt<W: fmt::Write>(&self, f: &mut fmt::Formatter<W>) -> fmt::Result {
        write!(f, "no kind has number {}", self.0)
    }
}

impl Error for UnknownKind {}

// The ground of a request: its kind, and its priority from 0 to 255.
#[derive(Clone, Copy, Debug, Default, PartialEq, Eq)]
pub struct Ground {
    pub kind: Kind,
    pub priority: u8,
}
