// Every event of a call.
ghost use Rattle.std.specs.Prelude.{◌≡◌};
ghost use Rattle.model.specs.Step.{step, of_member, request_of, in_state};
ghost use Rattle.call.specs.View.{view};

use crate::answers::{queued, rejected};
use crate::tables::Call;
use model::acts::Reply;
use model::causes::RejectCause;
use model::events::{CameraEvent, Event};
use model::refusals::Refusal;
use model::register::Row;
use model::tables::{Class, State};
use order::ordering::Ordering;
use precedence::claims::Claim;
use precedence::grounds::{Ground, Kind};

impl Call {
    // One event, under the rule that is lent.
    pub fn handle<R: Ordering<Item = Ground>>(
        &mut self,
        register: &mut [Row],
        rule: &R,
        event: Event,
    ) -> Result<Reply, Refusal>
        ensures state { view self.new register.new ≡ (step (R.Ordering.standing rule.now) (view self.old register.old) event).0 }
        ensures answer { result ≡ (step (R.Ordering.standing rule.now) (view self.old register.old) event).1 }
    {
        match event {
            Event::Join { camera, class } => self.join(camera, class),
            Event::Leave { camera } => self.of_member(register, rule, camera, CameraEvent::Leave),
            Event::Request {
                camera,
                kind,
                priority,
            } => self.request(register, rule, camera, kind, priority),
            Event::Release { camera } => self.of_member(
                register,
                rule,
                camera,
                CameraEvent::Release,
            ),
            Event::Cancel { camera } => self.of_member(register, rule, camera, CameraEvent::Cancel),
            Event::Position { camera } => self.of_member(
                register,
                rule,
                camera,
                CameraEvent::Position,
            ),
            Event::Clock { to } => self.clock_to(register, to),
        }
    }

    // An event of a camera, which has to be in the call.
    fn of_member<R: Ordering<Item = Ground>>(
        &mut self,
        register: &mut [Row],
        rule: &R,
        camera: u32,
        event: CameraEvent,
    ) -> Result<Reply, Refusal>
        ensures state { view self.new register.new ≡ (of_member (R.Ordering.standing rule.now) (view self.old register.old) camera event).0 }
        ensures answer { result ≡ (of_member (R.Ordering.standing rule.now) (view self.old register.old) camera event).1 }
    {
        self.member(camera).ok_or(Refusal::NotInCall)?;
        let state = self.state_of(camera);
        self.in_state(register, rule, camera, state, event)
    }

    // A request, which has to be of a kind, and of a camera that may transmit.
    fn request<R: Ordering<Item = Ground>>(
        &mut self,
        register: &mut [Row],
        rule: &R,
        camera: u32,
        kind: u8,
        priority: u8,
    ) -> Result<Reply, Refusal>
        ensures state { view self.new register.new ≡ (request_of (R.Ordering.standing rule.now) (view self.old register.old) camera kind priority).0 }
        ensures answer { result ≡ (request_of (R.Ordering.standing rule.now) (view self.old register.old) camera kind priority).1 }
    {
        let member = self.member(camera).ok_or(Refusal::NotInCall)?;
        let kind = Kind::try_from(kind)?;
        match member.class {
            Class::ReceiveOnly => rejected(camera, RejectCause::ReceiveOnly),
            Class::MayTransmit => {
                let state = self.state_of(camera);
                let ground = Ground { kind, priority };
                self.in_state(
                    register,
                    rule,
                    camera,
                    state,
                    CameraEvent::Request { ground },
                )
            }
        }
    }

    // What a camera's event does, by its state and the event together: one match on both, by a rule of the project.
    fn in_state<R: Ordering<Item = Ground>>(
        &mut self,
        register: &mut [Row],
        rule: &R,
        camera: u32,
        state: State,
        event: CameraEvent,
    ) -> Result<Reply, Refusal>
        ensures state { view self.new register.new ≡ (in_state (R.Ordering.standing rule.now) (view self.old register.old) camera state event).0 }
        ensures answer { result ≡ (in_state (R.Ordering.standing rule.now) (view self.old register.old) camera state event).1 }
    {
        match (state, event) {
            (State::Idle, CameraEvent::Request { ground }) => {
                self.ask(register, rule, Claim { camera, ground })
            }
            (State::Waiting { place }, CameraEvent::Request { .. } | CameraEvent::Position) => {
                queued(camera, place)
            }
            (State::Standing { transmission }, CameraEvent::Request { .. }) => {
                self.resend(transmission)
            }
            (State::Recalled { cause, .. }, CameraEvent::Request { .. }) => {
                rejected(camera, RejectCause::Recalled { cause })
            }
            (State::Idle, CameraEvent::Leave) => self.leave_idle(camera),
            (State::Waiting { .. }, CameraEvent::Leave) => self.leave_waiting(camera),
            (
                State::Standing { transmission } | State::Recalled { transmission, .. },
                CameraEvent::Leave,
            ) => self.leave_open(register, camera, transmission),
            (
                State::Standing { transmission } | State::Recalled { transmission, .. },
                CameraEvent::Release,
            ) => self.release(register, transmission),
            (State::Idle | State::Waiting { .. }, CameraEvent::Release) => {
                Err(Refusal::NothingOpen)
            }
            (State::Waiting { .. }, CameraEvent::Cancel) => self.cancel(camera),
            (
                State::Idle | State::Standing { .. } | State::Recalled { .. },
                CameraEvent::Cancel | CameraEvent::Position,
            ) => Err(Refusal::NotWaiting),
        }
    }
}
