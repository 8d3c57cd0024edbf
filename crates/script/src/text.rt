// The text of an answer: a line for the event, and a line for each act. What is written to and the line's number go
// through four small functions; a struct of both would be made and used in one place.
ghost use Rattle.std.specs.Prelude.{◌≡◌, ◌++◌, OnOk, string_bytes};
ghost use Rattle.model.specs.Acts.{listed};
ghost use Rattle.script.specs.Text.{answer_text, accepted_text, refused_text, act_lines};

use model::acts::{Acts, Reply};
use model::refusals::Refusal;
use std::alloc::AllocError;

// The number of a bad line's answer. It is no refusal's, since no event was read, and is written here alone; so what is
// refused has a number, and no enum.
const BAD_LINE: u8 = 24;

// The lines of an event's answer.
pub fn answered(
    out: &mut String,
    number: usize,
    answer: Result<Reply, Refusal>,
) -> Result<(), AllocError>
    ensures text { OnOk result (string_bytes out.new ≡ string_bytes out.old ++ answer_text number answer) }
{
    match answer {
        Ok(reply) => accepted(out, number, reply),
        Err(refusal) => refused(out, number, u8::from(refusal)),
    }
}

pub fn bad_line(out: &mut String, number: usize) -> Result<(), AllocError>
    ensures text { OnOk result (string_bytes out.new ≡ string_bytes out.old ++ refused_text number BAD_LINE) }
{
    refused(out, number, BAD_LINE)
}

fn refused(out: &mut String, number: usize, answer: u8) -> Result<(), AllocError>
    ensures text { OnOk result (string_bytes out.new ≡ string_bytes out.old ++ refused_text number answer) }
{
    // Written here, as the line below is: it is of no type that could display itself.
    writeln!(out, "n={number} answer={answer} more=0 acts=0")
}

fn accepted(out: &mut String, number: usize, reply: Reply) -> Result<(), AllocError>
    ensures text { OnOk result (string_bytes out.new ≡ string_bytes out.old ++ accepted_text number reply) }
{
    let more = u8::from(reply.more);
    let count = reply.acts.len();
    writeln!(out, "n={number} answer=0 more={more} acts={count}")?;
    acts(out, reply.acts)
}

fn acts(out: &mut String, acts: Acts) -> Result<(), AllocError>
    ensures text { OnOk result (string_bytes out.new ≡ string_bytes out.old ++ act_lines (listed acts)) }
{
    for act in acts {
        writeln!(out, "{act}")?;
    }
    Ok(())
}
