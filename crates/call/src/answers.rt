// Answers of accepted events.
ghost use Rattle.std.specs.Prelude.{◌≡◌, Ok};
ghost use Rattle.model.specs.Answers.{reply_with};

use model::acts::{Act, Acts, Reply};
use model::causes::RejectCause;
use model::refusals::Refusal;

// The answer to any accepted event but a clock that stopped at an alarm.
pub(crate) fn accepted(acts: Acts) -> Result<Reply, Refusal>
    ensures answer { result ≡ reply_with acts }
{
    Ok(Reply { more: false, acts })
}

pub(crate) fn says(act: Act) -> Result<Reply, Refusal>
    ensures answer { result ≡ reply_with (Acts.One act) }
{
    accepted(Acts::One { first: act })
}

pub(crate) fn queued(camera: u32, place: u8) -> Result<Reply, Refusal>
    ensures answer { result ≡ reply_with (Acts.One (Act.Queued camera place)) }
{
    says(Act::Queued { camera, place })
}

pub(crate) fn rejected(camera: u32, cause: RejectCause) -> Result<Reply, Refusal>
    ensures answer { result ≡ reply_with (Acts.One (Act.Reject camera cause)) }
{
    says(Act::Reject { camera, cause })
}
