// The entries of a call's tables, and the state of one camera.
ghost use Rattle.std.specs.Prelude.{◌≡◌, ◌++◌, Some, codes, decimal};
ghost use Rattle.std.specs.Option.{ok_or};
ghost use Rattle.model.specs.Tables.{class_of};

use crate::causes::RecallCause;
use precedence::grounds::Ground;
use std::error::Error;
use std::fmt;

// Whether a camera may transmit or only receives.
#[derive(Clone, Copy, Debug, PartialEq, Eq, Default)]
pub enum Class {
    #[default]
    ReceiveOnly = 0,
    MayTransmit = 1,
}

// A number that is no class's, of a type of its own as the number of no kind is.
#[derive(Clone, Copy, Debug, PartialEq, Eq)]
pub struct UnknownClass(pub u8);

impl TryFrom<u8> for Class {
    type Error = UnknownClass;

    // The class with the number, if there is one.
    ghost try_from_gives = { λ number r. r ≡ ok_or (class_of number) (record { 0 = number }) };

    fn try_from(number: u8) -> Result<Class, UnknownClass> {
        match number {
            0 => Ok(Class::ReceiveOnly),
            1 => Ok(Class::MayTransmit),
            _ => Err(UnknownClass(number)),
        }
    }
}

impl fmt::Display for UnknownClass {
    ghost output = { λ unknown. Some (codes "no class has number " ++ decimal unknown.0) };

    fn fmt<W: fmt::Write>(&self, f: &mut fmt::Formatter<W>) -> fmt::Result {
        write!(f, "no class has number {}", self.0)
    }
}

impl Error for UnknownClass {}

// A camera in the call: a transmission participant, known by its SSRC.
#[derive(Clone, Copy, Debug, PartialEq, Eq, Default)]
pub struct Member {
    pub camera: u32,
    pub class: Class,
}

// An open transmission, with the number, camera and ground of its grant. It is open until it ends: standing until it is
// recalled, and then under recall.
#[derive(Clone, Copy, Debug, PartialEq, Eq, Default)]
pub struct Transmission {
    pub number: u16,
    pub camera: u32,
    pub ground: Ground,
    // Why it is under recall, if it is.
    pub recall: Option<RecallCause>,
}

// The state of a camera in the call.
#[derive(Clone, Copy, Debug, PartialEq, Eq)]
pub enum State {
    Idle,
    // Its claim is at this place of the line, from 1.
    Waiting {
        place: u8,
    },
    Standing {
        transmission: Transmission,
    },
    Recalled {
        transmission: Transmission,
        cause: RecallCause,
    },
}
