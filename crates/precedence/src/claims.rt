// Claims, and their ordering by ground under a rule that is lent.
ghost use Rattle.order.proofs.Orderings.{along};

use crate::grounds::Ground;
use order::ordering::Ordering;
use order::standing::Standing;

// A waiting camera, by its SSRC, with the ground of its request.
#[derive(Clone, Copy, Debug, Default, PartialEq, Eq)]
pub struct Claim {
    pub camera: u32,
    pub ground: Ground,
}

#[derive(Drop)]
pub struct ByGround<'a, R> {
    pub rule: &'a R,
}

impl<'a, R: Ordering<Item = Ground>> Ordering for ByGround<'a, R> {
    type Item = Claim;

    ghost standing = { λ o a b. R.Ordering.standing o.rule.now a.ground b.ground };

    ghost laws = { along R.Ordering.standing R.Ordering.laws (λ o. o.rule.now) (λ o a. a.ground) };

    fn compare(&self, a: &Claim, b: &Claim) -> Standing {
        self.rule.compare(&a.ground, &b.ground)
    }
}
