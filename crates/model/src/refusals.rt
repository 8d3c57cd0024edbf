// Why an event, an opening or the reading of a row is refused; each refusal has its number.
ghost use Rattle.std.specs.Prelude.{◌≡◌};
ghost use Rattle.model.specs.Refusals.{refusal_number};
ghost use Rattle.model.specs.declared.refusals.Refusal.TheVariants.{BadJoin, BadKind};

use crate::tables::UnknownClass;
use precedence::grounds::UnknownKind;

#[derive(Clone, Copy, Debug, PartialEq, Eq)]
pub enum Refusal {
    // A setting is outside its range.
    Setting = 11,
    // The SSRC is 0, the server's or already in, or the class is above 1.
    BadJoin = 13,
    // As many as a call holds are in.
    CallFull = 14,
    NotInCall = 15,
    // The kind is above 2.
    BadKind = 16,
    // Release: the camera has no open transmission.
    NothingOpen = 17,
    // Cancel, position: the camera does not wait.
    NotWaiting = 18,
    // The second is before the clock.
    ClockBack = 19,
    // The second is after the last that a clock may reach.
    ClockBeyond = 20,
    // Reading a row: its number is 0, or not yet granted.
    NoSuchRow = 23,
}

impl From<Refusal> for u8 {
    ghost from_gives = { λ refusal number. number ≡ refusal_number refusal };

    fn from(refusal: Refusal) -> u8 {
        refusal as u8
    }
}

impl From<UnknownClass> for Refusal {
    ghost from_gives = { λ _ refusal. refusal ≡ BadJoin };

    fn from(_: UnknownClass) -> Refusal {
        Refusal::BadJoin
    }
}

impl From<UnknownKind> for Refusal {
    ghost from_gives = { λ _ refusal. refusal ≡ BadKind };

    fn from(_: UnknownKind) -> Refusal {
        Refusal::BadKind
    }
}
