// A whole listing: the script's lines are handled one by one, and answered in their order.
ghost use Rattle.std.specs.Prelude.{◌≤◌, IfSome, IfOk};

use crate::forms::{Opening, read_event, read_opening};
use crate::lines::{Lines, Numbered};
use crate::rule::NamedRule;
use crate::text::{answered, bad_line};
use arbiter::arbiter::Arbiter;
use model::acts::{Acts, Reply};
use model::refusals::Refusal;
use model::register::{BLANK_ROW, Row};
use model::settings::Settings;
use std::alloc::{AllocError, Global};

// The rows that a listing lends to its call.
const ROWS: usize = 2_000;

// The answer to the line that opens the call.
const OPENING_REPLY: Reply = Reply {
    more: false,
    acts: Acts::Zero,
};

// The text that the script's listing prints, or want of memory.
pub fn listing(heap: Global, script: &[u8]) -> Result<String, AllocError> {
    let mut register = vec![in heap; BLANK_ROW; ROWS]?;
    let mut out = String::new(heap);
    answer_all(&mut out, script, &mut register)?;
    Ok(out)
}

// Answers every line of the script.
fn answer_all(out: &mut String, script: &[u8], register: &mut [Row]) -> Result<(), AllocError> {
    let mut lines = Lines::of(script);
    let Some(opened) = until_open(out, &mut lines, register.len())? else {
        return Ok(());
    };
    let mut arbiter = Arbiter::open(opened.settings, register);
    from_open(out, &mut lines, &mut arbiter, &opened.rule)
}

// A call that is to be opened.
#[derive(Clone, Copy, Debug, PartialEq, Eq)]
struct Opened {
    settings: Settings,
    rule: NamedRule,
}

impl Opened {
    fn checked(opening: Opening, lent: usize) -> Result<Opened, Refusal>
        ensures lent { IfOk result (λ opened. opened.settings.rows ≤ lent) }
    {
        let Opening { wanted, rule } = opening;
        let settings = Settings::checked(wanted, lent)?;
        Ok(Opened { settings, rule })
    }
}

// Answers the lines up to the first that opens a call.
fn until_open(
    out: &mut String,
    lines: &mut Lines<'_>,
    lent: usize,
) -> Result<Option<Opened>, AllocError>
    ensures lent { IfOk result (λ o. IfSome o (λ opened. opened.settings.rows ≤ lent)) }
{
    for Numbered { line, number } in lines {
        match read_opening(line).map(|opening| Opened::checked(opening, lent)) {
            None => bad_line(out, number)?,
            Some(Err(refusal)) => answered(out, number, Err(refusal))?,
            Some(Ok(opened)) => {
                answered(out, number, Ok(OPENING_REPLY))?;
                return Ok(Some(opened));
            }
        }
    }
    Ok(None)
}

// Answers the other lines, in the call that is open.
fn from_open(
    out: &mut String,
    lines: &mut Lines<'_>,
    arbiter: &mut Arbiter<'_>,
    rule: &NamedRule,
) -> Result<(), AllocError> {
    for Numbered { line, number } in lines {
        match read_event(line) {
            None => bad_line(out, number)?,
            Some(event) => answered(out, number, arbiter.handle(rule, event))?,
        }
    }
    Ok(())
}
