// The register: row n, from 1, holds grant n.
ghost use Rattle.std.specs.Prelude.{◌≡◌};
ghost use Rattle.model.specs.Register.{second_ended, cause_number};

use crate::causes::EndCause;
use precedence::grounds::{Ground, Kind};

// The second at which a grant ended, and why.
#[derive(Clone, Copy, Debug, PartialEq, Eq)]
pub struct End {
    pub second: u32,
    pub cause: EndCause,
}

// While it has no end, a granted row is open.
#[derive(Clone, Copy, Debug, PartialEq, Eq)]
pub struct Row {
    pub camera: u32,
    pub ground: Ground,
    pub granted: u32,
    pub end: Option<End>,
}

// A row not yet granted.
pub const BLANK_ROW: Row = Row {
    camera: 0,
    ground: Ground {
        kind: Kind::Normal,
        priority: 0,
    },
    granted: 0,
    end: None,
};

// The numbers that a row shows, for whoever reads the register.
impl Row {
    // The second ended, or 0 while there is no end.
    pub fn second_ended(self) -> u32
        ensures value { result ≡ second_ended self.end }
    {
        self.end.map_or(0, |end| end.second)
    }

    // The number of the end cause, or 0 while there is no end.
    pub fn cause_number(self) -> u8
        ensures value { result ≡ cause_number self.end }
    {
        self.end.map_or(0, |end| u8::from(end.cause))
    }
}
