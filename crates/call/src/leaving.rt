// Leaving the call, and leaving the line.
ghost use Rattle.std.specs.Prelude.{◌≡◌};
ghost use Rattle.model.specs.Step.{drop_claim, leave_idle, leave_waiting, leave_open, cancel_claim};
ghost use Rattle.model.specs.Answers.{accepted_with};
ghost use Rattle.model.specs.Transmissions.{end_of};
ghost use Rattle.call.specs.View.{as_lists, view};

use crate::answers::{accepted, says};
use crate::finding::drop_first;
use crate::tables::Call;
use model::acts::{Act, Acts, Reply};
use model::causes::EndCause;
use model::lookup::OfCamera;
use model::refusals::Refusal;
use model::register::Row;
use model::tables::Transmission;

impl Call {
    // A camera without a claim and without a transmission leaves.
    pub(crate) fn leave_idle(&mut self, camera: u32) -> Result<Reply, Refusal>
        ensures lists { as_lists self.new ≡ (leave_idle (as_lists self.old) camera).0 }
        ensures answer { result ≡ (leave_idle (as_lists self.old) camera).1 }
    {
        self.drop_member(camera);
        accepted(Acts::Zero)
    }

    // The claim is dropped without an act, and then the camera leaves.
    pub(crate) fn leave_waiting(&mut self, camera: u32) -> Result<Reply, Refusal>
        ensures lists { as_lists self.new ≡ (leave_waiting (as_lists self.old) camera).0 }
        ensures answer { result ≡ (leave_waiting (as_lists self.old) camera).1 }
    {
        self.drop_claim(camera);
        self.leave_idle(camera)
    }

    // The transmission ends, and then the camera leaves.
    pub(crate) fn leave_open(
        &mut self,
        register: &mut [Row],
        camera: u32,
        transmission: Transmission,
    ) -> Result<Reply, Refusal>
        ensures state { view self.new register.new ≡ (leave_open (view self.old register.old) camera transmission).0 }
        ensures answer { result ≡ (leave_open (view self.old register.old) camera transmission).1 }
    {
        let acts = self.end(register, transmission, EndCause::Leave);
        self.drop_member(camera);
        accepted(acts)
    }

    // The transmission ends.
    pub(crate) fn release(
        &mut self,
        register: &mut [Row],
        transmission: Transmission,
    ) -> Result<Reply, Refusal>
        ensures state { view self.new register.new ≡ (end_of (view self.old register.old) transmission EndCause.Release).0 }
        ensures answer { result ≡ (accepted_with (end_of (view self.old register.old) transmission EndCause.Release)).1 }
    {
        accepted(self.end(register, transmission, EndCause::Release))
    }

    // The claim is dropped, and the camera told.
    pub(crate) fn cancel(&mut self, camera: u32) -> Result<Reply, Refusal>
        ensures lists { as_lists self.new ≡ (cancel_claim (as_lists self.old) camera).0 }
        ensures answer { result ≡ (cancel_claim (as_lists self.old) camera).1 }
    {
        self.drop_claim(camera);
        says(Act::Cancelled { camera })
    }

    // Takes the camera's claim out of the line.
    fn drop_claim(&mut self, camera: u32)
        ensures lists { as_lists self.new ≡ drop_claim (as_lists self.old) camera }
    {
        drop_first(&mut self.claims, &OfCamera(camera));
    }
}
