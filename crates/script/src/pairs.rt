// The parts of a line: fixed text, and numbers.
ghost use Rattle.std.specs.Prelude.{◌≤◌, IfSome};

// A number that was read, and what follows it.
#[derive(Clone, Copy, Debug, PartialEq, Eq)]
pub struct Pair<'a> {
    pub value: u32,
    pub rest: &'a [u8],
}

// What follows the fixed text, if the line begins with it.
pub fn after<'a>(line: &'a [u8], text: &[u8]) -> Option<&'a [u8]> {
    // `strip_prefix` says the same. Written out, openings and most events are read in fewer instructions.
    let (head, rest) = line.split_at_checked(text.len())?;
    head.iter()
        .zip(text)
        .all(|(octet, wanted)| octet == wanted)
        .then_some(rest)
}

// A key, with all that stands around it, and a number of at most `most`. A number of fewer bits is bounded by its type,
// in `forms`; this says it of any bound.
pub fn read_pair<'a>(line: &'a [u8], key: &[u8], most: u32) -> Option<Pair<'a>>
    ensures most { IfSome result (λ p. p.value ≤ most) }
{
    let text = after(line, key)?;
    let digits = text.iter().take_while(|octet| octet.is_ascii_digit());
    let (digits, rest) = text.split_at(digits.count());
    let value = number(digits).filter(|value| *value <= most)?;
    Some(Pair { value, rest })
}

// The number that the digits write, if there are any, with no needless zero, and it fits 32 bits.
fn number(digits: &[u8]) -> Option<u32> {
    match digits {
        [] | [b'0', _, ..] => None,
        _ => digits.iter().copied().try_fold(0, with_digit),
    }
}

// The number with one digit more, if the octet is a digit and the number still fits.
fn with_digit(number: u32, octet: u8) -> Option<u32> {
    let digit = char::from(octet).to_digit(10)?;
    number.checked_mul(10)?.checked_add(digit)
}
