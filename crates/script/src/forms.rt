// The forms of a line. Anything else is a bad line.
use crate::pairs::{after, read_pair};
use crate::rule::{NamedRule, sixteenths};
use model::events::Event;
use model::settings::Wanted;
use precedence::grading::Graded;
use precedence::rules::{Plain, Urgent};

// The server's SSRC in every listing.
const SERVER: u32 = 1;

// Opens a call with these settings under this rule.
#[derive(Clone, Copy, Debug, PartialEq, Eq)]
pub struct Opening {
    pub wanted: Wanted,
    pub rule: NamedRule,
}

pub fn read_opening(line: &[u8]) -> Option<Opening> {
    let (limit, rest) = read_number(line, b"do=open limit=")?;
    let (queue, rest) = read_number(rest, b" line=")?;
    let (talk, rest) = read_number(rest, b" talk=")?;
    let (grace, rest) = read_number(rest, b" grace=")?;
    let (rows, rest) = read_number(rest, b" rows=")?;
    let rule = read_rule(after(rest, b" rule=")?)?;
    let wanted = Wanted {
        limit,
        line: queue,
        talk,
        grace,
        rows,
        server: SERVER,
    };
    Some(Opening { wanted, rule })
}

// Not a `FromStr`: a line is octets, and a check that they are text would make it no plainer.
fn read_rule(name: &[u8]) -> Option<NamedRule> {
    match name {
        b"plain" => Some(NamedRule::Plain(Plain)),
        b"urgent" => Some(NamedRule::Urgent(Urgent)),
        b"graded" => Some(NamedRule::Graded(Graded {
            below: Plain,
            table: sixteenths(),
        })),
        _ => None,
    }
}

// The first letter tells which words there may be, so that a line is not read through for its word.
pub fn read_event(line: &[u8]) -> Option<Event> {
    let event = after(line, b"do=")?;
    match event.first()? {
        b'j' => read_join(event),
        b'l' => read_last(event, b"leave cam=").map(|camera| Event::Leave { camera }),
        b'r' => read_request(event).or_else(|| read_release(event)),
        b'c' => read_cancel(event).or_else(|| read_clock(event)),
        b'p' => read_last(event, b"position cam=").map(|camera| Event::Position { camera }),
        _ => None,
    }
}

fn read_join(event: &[u8]) -> Option<Event> {
    let (camera, rest) = read_number(event, b"join cam=")?;
    let class = read_last(rest, b" class=")?;
    Some(Event::Join { camera, class })
}

fn read_request(event: &[u8]) -> Option<Event> {
    let (camera, rest) = read_number(event, b"request cam=")?;
    let (kind, rest) = read_number(rest, b" kind=")?;
    let priority = read_last(rest, b" prio=")?;
    Some(Event::Request {
        camera,
        kind,
        priority,
    })
}

fn read_release(event: &[u8]) -> Option<Event> {
    read_last(event, b"release cam=").map(|camera| Event::Release { camera })
}

fn read_cancel(event: &[u8]) -> Option<Event> {
    read_last(event, b"cancel cam=").map(|camera| Event::Cancel { camera })
}

fn read_clock(event: &[u8]) -> Option<Event> {
    read_last(event, b"clock to=").map(|to| Event::Clock { to })
}

// A number that ends the line.
fn read_last<T: TryFrom<u32> + Drop>(line: &[u8], key: &[u8]) -> Option<T>
where
    T::Error: Drop,
{
    let (number, rest) = read_number(line, key)?;
    rest.is_empty().then_some(number)
}

// A number that fits its type, which bounds it here, and what follows it: a pair without its name, so that each line of
// a form names both.
fn read_number<'a, T: TryFrom<u32>>(line: &'a [u8], key: &[u8]) -> Option<(T, &'a [u8])>
where
    T::Error: Drop,
{
    let pair = read_pair(line, key, u32::MAX)?;
    let number = T::try_from(pair.value).ok()?;
    Some((number, pair.rest))
}
