// Pre-emption: whether a standing transmission is recalled for a claim, and which.
ghost use Rattle.std.specs.Prelude.{◌≡◌, ◌+◌};
ghost use Rattle.order.specs.Lines.{at_place};
ghost use Rattle.model.specs.Preemption.{recalls, later_standing, last_standing, pre_empted_by, pre_empt};
ghost use Rattle.call.specs.View.{as_lists};

use crate::tables::Call;
use model::acts::Act;
use model::causes::RecallCause;
use model::tables::Transmission;
use order::ordering::Ordering;
use order::standing::Standing;
use precedence::claims::Claim;
use precedence::grounds::Ground;

impl Call {
    // The recall test: if the claim to test is ahead of some standing transmission, the last in precedence is recalled.
    pub(crate) fn preempt<R: Ordering<Item = Ground>>(&mut self, rule: &R) -> Option<Act>
        ensures lists { as_lists self.new ≡ (pre_empt (R.Ordering.standing rule.now) (as_lists self.old)).0 }
        ensures act { result ≡ (pre_empt (R.Ordering.standing rule.now) (as_lists self.old)).1 }
    {
        let claim = self.claim_to_test()?;
        let last = preempted_by(rule, claim, self.open.all())?;
        Some(self.recall(last, RecallCause::PreEmption))
    }

    // With r transmissions under recall, the claim at place r + 1, if any.
    fn claim_to_test(&self) -> Option<Claim>
        ensures item { result ≡ at_place (recalls (as_lists self.now).transmissions + 1) (as_lists self.now).claims }
    {
        let recalled = self
            .open
            .all()
            .iter()
            .filter(|transmission| transmission.recall.is_some())
            .count();
        self.claims.all().get(recalled).copied()
    }
}

// The transmission that the claim pre-empts, if any: the standing one that is last in precedence, if the claim is ahead
// of it. By the two laws, it is ahead of that one if it is ahead of any.
fn preempted_by<R: Ordering<Item = Ground>>(
    rule: &R,
    claim: Claim,
    transmissions: &[Transmission],
) -> Option<Transmission>
    ensures item { result ≡ pre_empted_by (R.Ordering.standing rule.now) claim transmissions.now }
{
    let last = last_standing(rule, transmissions)?;
    match rule.compare(&claim.ground, &last.ground) {
        Standing::Ahead => Some(last),
        Standing::Level | Standing::Behind => None,
    }
}

// The standing transmission that is last in precedence, and of level ones the one granted last.
fn last_standing<R: Ordering<Item = Ground>>(
    rule: &R,
    transmissions: &[Transmission],
) -> Option<Transmission>
    ensures item { result ≡ last_standing (R.Ordering.standing rule.now) transmissions.now }
{
    // By index, by a rule of the project: each is looked at in turn, and the last in precedence so far is kept.
    let mut last = None;
    for i in 0..transmissions.len() {
        last = later(rule, last, transmissions[i]);
    }
    last
}

// The last in precedence so far, and the next transmission: which of them is last, the next where they are level.
fn later<R: Ordering<Item = Ground>>(
    rule: &R,
    so_far: Option<Transmission>,
    next: Transmission,
) -> Option<Transmission>
    ensures item { result ≡ later_standing (R.Ordering.standing rule.now) so_far next }
{
    match (so_far, next.recall) {
        (_, Some(_)) => so_far,
        (None, None) => Some(next),
        (Some(last), None) => {
            if rule.compare(&last.ground, &next.ground).not_behind() {
                Some(next)
            } else {
                so_far
            }
        }
    }
}
