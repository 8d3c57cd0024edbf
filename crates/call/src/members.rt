// Who is in the call, and in which state.
ghost use Rattle.std.specs.Prelude.{◌≡◌, find};
ghost use Rattle.std.specs.List.{list_any};
ghost use Rattle.model.specs.Cameras.{state_of_camera};
ghost use Rattle.model.specs.Lookups.{is_member};
ghost use Rattle.model.specs.Step.{may_not_join, admit, join_as, drop_member};
ghost use Rattle.model.specs.Tables.{class_of};
ghost use Rattle.call.specs.View.{as_lists};

use crate::answers::accepted;
use crate::finding::drop_first;
use crate::tables::Call;
use model::acts::{Acts, Reply};
use model::lookup::{OfCamera, first_with, place_of_first};
use model::refusals::Refusal;
use model::tables::{Class, Member, State};

impl Call {
    // A camera joins with a class, by its number.
    pub(crate) fn join(&mut self, camera: u32, class: u8) -> Result<Reply, Refusal>
        ensures lists { as_lists self.new ≡ (join_as (as_lists self.old) camera (class_of class)).0 }
        ensures answer { result ≡ (join_as (as_lists self.old) camera (class_of class)).1 }
    {
        let class = Class::try_from(class)?;
        if self.may_not_join(camera) {
            return Err(Refusal::BadJoin);
        }
        self.admit(Member { camera, class })
    }

    // 0, the server and who is in already may not join.
    fn may_not_join(&self, camera: u32) -> bool
        ensures test { result ≡ may_not_join (as_lists self.now) camera }
    {
        camera == 0 || camera == self.settings.server || self.is_in(camera)
    }

    #[tactic(auto, using(model::proofs::Words::some_found))]
    fn is_in(&self, camera: u32) -> bool
        ensures test { result ≡ list_any (is_member camera) (as_lists self.now).members }
    {
        self.member(camera).is_some()
    }

    // Who joins is last in joining order.
    fn admit(&mut self, member: Member) -> Result<Reply, Refusal>
        ensures lists { as_lists self.new ≡ (admit (as_lists self.old) member).0 }
        ensures answer { result ≡ (admit (as_lists self.old) member).1 }
    {
        if self.members.append(member) {
            accepted(Acts::Zero)
        } else {
            Err(Refusal::CallFull)
        }
    }

    // The camera as a member, if it is in the call.
    pub(crate) fn member(&self, camera: u32) -> Option<Member>
        ensures item { result ≡ find (is_member camera) (as_lists self.now).members }
    {
        first_with(self.members.all(), &OfCamera(camera))
    }

    pub(crate) fn drop_member(&mut self, camera: u32)
        ensures lists { as_lists self.new ≡ drop_member (as_lists self.old) camera }
    {
        drop_first(&mut self.members, &OfCamera(camera));
    }

    // Idle, waiting, standing or recalled.
    pub(crate) fn state_of(&self, camera: u32) -> State
        ensures state { result ≡ state_of_camera (as_lists self.now) camera }
    {
        match first_with(self.open.all(), &OfCamera(camera)) {
            Some(transmission) => match transmission.recall {
                None => State::Standing { transmission },
                Some(cause) => State::Recalled {
                    transmission,
                    cause,
                },
            },
            None => match place_of_first(self.claims.all(), &OfCamera(camera)) {
                Some(place) => State::Waiting { place: place as u8 },
                None => State::Idle,
            },
        }
    }
}
