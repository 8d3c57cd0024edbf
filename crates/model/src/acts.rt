// Acts: what an accepted event makes, for the cameras to be told or for the register. At most three, in order.
ghost use Rattle.std.specs.Prelude.{◌≡◌, List, length};
ghost use Rattle.std.specs.List.{slice_get};
ghost use Rattle.std.specs.Iterator.{YieldsFirst, item_count};
ghost use Rattle.model.specs.declared.acts.Act.{Act};
ghost use Rattle.model.specs.Acts.{act_word, act_number, act_camera, act_value, grant_act, notify_act, listed};

use crate::causes::{EndCause, RecallCause, RejectCause};
use std::marker::Model;

#[derive(Clone, Copy, Debug, PartialEq, Eq)]
pub enum Act {
    // The camera may transmit under this number, for so many seconds.
    Grant {
        number: u16,
        camera: u32,
        seconds: u32,
    },
    // The others are told that the camera transmits.
    Notify {
        number: u16,
        camera: u32,
    },
    // A standing camera that asks again is told its number and the seconds left.
    Resend {
        number: u16,
        camera: u32,
        seconds: u32,
    },
    // The camera's claim waits at this place of the line, from 1.
    Queued {
        camera: u32,
        place: u8,
    },
    // The camera's request is turned down.
    Reject {
        camera: u32,
        cause: RejectCause,
    },
    // The camera is to end its transmission.
    Revoke {
        number: u16,
        camera: u32,
        cause: RecallCause,
    },
    // The grant's row is closed; nobody is told.
    Ended {
        number: u16,
        camera: u32,
        cause: EndCause,
    },
    // The camera's claim is dropped.
    Cancelled {
        camera: u32,
    },
}

impl Act {
    pub fn word(self) -> &'static str
        ensures value { result.now ≡ act_word self }
    {
        match self {
            Act::Grant { .. } => "grant",
            Act::Notify { .. } => "notify",
            Act::Resend { .. } => "resend",
            Act::Queued { .. } => "queued",
            Act::Reject { .. } => "reject",
            Act::Revoke { .. } => "revoke",
            Act::Ended { .. } => "ended",
            Act::Cancelled { .. } => "cancelled",
        }
    }

    // The grant number, or 0 where the act is about no grant: a listing shows a number at each place, so this is no
    // `Option`.
    pub fn number(self) -> u16
        ensures value { result ≡ act_number self }
    {
        match self {
            Act::Grant { number, .. }
            | Act::Notify { number, .. }
            | Act::Resend { number, .. }
            | Act::Revoke { number, .. }
            | Act::Ended { number, .. } => number,
            Act::Queued { .. } | Act::Reject { .. } | Act::Cancelled { .. } => 0,
        }
    }

    pub fn camera(self) -> u32
        ensures value { result ≡ act_camera self }
    {
        match self {
            Act::Grant { camera, .. }
            | Act::Notify { camera, .. }
            | Act::Resend { camera, .. }
            | Act::Queued { camera, .. }
            | Act::Reject { camera, .. }
            | Act::Ended { camera, .. }
            | Act::Cancelled { camera }
            | Act::Revoke { camera, .. } => camera,
        }
    }

    // Seconds left, place or cause, or 0 where the act has none of them, as a listing shows it.
    pub fn value(self) -> u32
        ensures value { result ≡ act_value self }
    {
        match self {
            Act::Grant { seconds, .. } | Act::Resend { seconds, .. } => seconds,
            Act::Queued { place, .. } => u32::from(place),
            Act::Reject { cause, .. } => u32::from(u8::from(cause)),
            Act::Revoke { cause, .. } => u32::from(u8::from(cause)),
            Act::Ended { cause, .. } => u32::from(u8::from(cause)),
            Act::Notify { .. } | Act::Cancelled { .. } => 0,
        }
    }
}

// A grant just given.
#[derive(Clone, Copy, Debug, PartialEq, Eq)]
pub struct Granted {
    pub number: u16,
    pub camera: u32,
    // How many seconds the camera may transmit.
    pub seconds: u16,
}

impl Granted {
    // The act that tells the camera.
    pub fn grant(self) -> Act
        ensures value { result ≡ grant_act self }
    {
        let Granted {
            number,
            camera,
            seconds,
        } = self;
        Act::Grant {
            number,
            camera,
            seconds: u32::from(seconds),
        }
    }

    // The act that tells the others.
    pub fn notify(self) -> Act
        ensures value { result ≡ notify_act self }
    {
        let Granted { number, camera, .. } = self;
        Act::Notify { number, camera }
    }
}

// At most three, by the type. A vector in fixed memory would be no plainer: it is not `Copy`, and would need a blank
// act and a push for each act.
#[derive(Clone, Copy, Debug, PartialEq, Eq)]
pub enum Acts {
    Zero,
    One { first: Act },
    Two { first: Act, second: Act },
    Three { first: Act, second: Act, third: Act },
}

impl Acts {
    pub fn len(self) -> usize
        ensures value { result ≡ length (listed self) }
    {
        // Not `count` of the iterator, which takes more than ten times the time.
        match self {
            Acts::Zero => 0,
            Acts::One { .. } => 1,
            Acts::Two { .. } => 2,
            Acts::Three { .. } => 3,
        }
    }

    // The act at an index, from 0, if any.
    pub fn get(self, index: usize) -> Option<Act>
        ensures item { result ≡ slice_get (listed self) index }
    {
        // Not `nth` of the iterator, which takes more than one and a half times the time.
        match (self, index) {
            (Acts::One { first }, 0) => Some(first),
            (Acts::Two { first, .. }, 0) => Some(first),
            (Acts::Two { second, .. }, 1) => Some(second),
            (Acts::Three { first, .. }, 0) => Some(first),
            (Acts::Three { second, .. }, 1) => Some(second),
            (Acts::Three { third, .. }, 2) => Some(third),
            (_, _) => None,
        }
    }
}

impl IntoIterator for Acts {
    type Item = Act;

    type IntoIter = IntoIter;

    ghost into_iter_gives = { λ acts left. left ≡ listed acts };

    fn into_iter(self) -> IntoIter {
        IntoIter { left: self }
    }
}

// The acts of an answer that are still to come, seen as their list.
#[derive(Drop)]
pub struct IntoIter {
    left: Acts,
}

impl Model for IntoIter {
    ghost Value = { List Act };

    ghost view = { λ it. listed it.left };
}

impl Iterator for IntoIter {
    type Item = Act;

    ghost next_gives = { YieldsFirst (λ rest. rest) };

    ghost remaining = { item_count (λ rest. rest) };

    fn next(&mut self) -> Option<Act> {
        let (act, left) = match self.left {
            Acts::Zero => return None,
            Acts::One { first } => (first, Acts::Zero),
            Acts::Two { first, second } => (first, Acts::One { first: second }),
            Acts::Three {
                first,
                second,
                third,
            } => (
                first,
                Acts::Two {
                    first: second,
                    second: third,
                },
            ),
        };
        self.left = left;
        Some(act)
    }
}

// The answer to an accepted event.
#[derive(Clone, Copy, Debug, PartialEq, Eq)]
pub struct Reply {
    // The clock stopped at an alarm: the event is to be made again. The acts stand in either case, so this is no
    // `Option`.
    pub more: bool,
    pub acts: Acts,
}
