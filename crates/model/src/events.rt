// What may happen to a call.
use precedence::grounds::Ground;

// One event. Numbers of classes and kinds stand as they were received, and the call refuses those that mean nothing:
// the enums in their place would ask more of whoever makes the event.
#[derive(Clone, Copy, Debug, PartialEq, Eq)]
pub enum Event {
    Join { camera: u32, class: u8 },
    Leave { camera: u32 },
    Request { camera: u32, kind: u8, priority: u8 },
    Release { camera: u32 },
    Cancel { camera: u32 },
    Position { camera: u32 },
    Clock { to: u32 },
}

// An event of a camera that is in the call. What it does depends on the camera's state.
#[derive(Clone, Copy, Debug, PartialEq, Eq)]
pub enum CameraEvent {
    Leave,
    Request { ground: Ground },
    Release,
    Cancel,
    Position,
}

// The camera that an event comes from, and its place among the members, from 1.
#[derive(Clone, Copy, Debug, PartialEq, Eq)]
pub struct Sender {
    pub camera: u32,
    pub place: usize,
}
