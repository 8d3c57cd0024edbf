// A request of an idle camera, the first that fits: no row is left, a transmission may open, the line is full, the
// claim waits.
ghost use Rattle.std.specs.Prelude.{◌≡◌, ◌+◌, ◌<◌, length};
ghost use Rattle.model.specs.Answers.{reply_with};
ghost use Rattle.model.specs.Requests.{by_ground, ask_first, wait_for, resend_act};
ghost use Rattle.call.specs.View.{as_lists, view};

use crate::answers::{accepted, rejected, says};
use crate::tables::Call;
use model::acts::{Act, Acts, Reply};
use model::causes::RejectCause;
use model::refusals::Refusal;
use model::register::Row;
use model::tables::Transmission;
use order::ordering::Ordering;
use precedence::claims::{ByGround, Claim};
use precedence::grounds::Ground;

impl Call {
    // An idle camera that may transmit asks.
    pub(crate) fn ask<R: Ordering<Item = Ground>>(
        &mut self,
        register: &mut [Row],
        rule: &R,
        claim: Claim,
    ) -> Result<Reply, Refusal>
        ensures state { view self.new register.new ≡ (ask_first (R.Ordering.standing rule.now) (view self.old register.old) claim).0 }
        ensures answer { result ≡ (ask_first (R.Ordering.standing rule.now) (view self.old register.old) claim).1 }
    {
        let waiting = self.claims.all().len();
        if usize::from(self.grants) + waiting == usize::from(self.settings.rows) {
            return rejected(claim.camera, RejectCause::NoRow);
        }
        if self.open.all().len() < usize::from(self.settings.limit) {
            let granted = self.grant(register, claim);
            return accepted(Acts::Two {
                first: granted.grant(),
                second: granted.notify(),
            });
        }
        if waiting < usize::from(self.settings.line) {
            return accepted(self.wait_in_line(rule, claim));
        }
        rejected(claim.camera, RejectCause::LineFull)
    }

    // The claim joins the line, and then the recall test is made.
    fn wait_in_line<R: Ordering<Item = Ground>>(&mut self, rule: &R, claim: Claim) -> Acts
        requires room { length (as_lists self.old).claims < self.old.settings.line }
        requires rows { self.old.grants + length (as_lists self.old).claims < self.old.settings.rows }
        ensures lists { as_lists self.new ≡ (wait_for (R.Ordering.standing rule.now) (as_lists self.old) claim).0 }
        ensures acts { result ≡ (wait_for (R.Ordering.standing rule.now) (as_lists self.old) claim).1 }
    {
        let by_ground = ByGround { rule };
        let joined = self.claims.join(&by_ground, claim);
        // There is room: fewer claims wait than the setting allows, which is at most 32.
        let place = joined.unwrap_or(0) as u8;
        let queued = Act::Queued {
            camera: claim.camera,
            place,
        };
        match self.preempt(rule) {
            None => Acts::One { first: queued },
            Some(revoke) => Acts::Two {
                first: queued,
                second: revoke,
            },
        }
    }

    // A standing camera that asks again is told its number and the seconds left.
    pub(crate) fn resend(&self, transmission: Transmission) -> Result<Reply, Refusal>
        ensures answer { result ≡ reply_with (Acts.One (resend_act (as_lists self.now) transmission)) }
    {
        let number = transmission.number;
        says(Act::Resend {
            number,
            camera: transmission.camera,
            seconds: self.seconds_left(number),
        })
    }
}
