// The lines of a script.
ghost use Rattle.std.specs.Prelude.{◌≡◌, ◌≤◌, min, length, take};
ghost use Rattle.std.specs.Iterator.{at_most};
ghost use Rattle.script.specs.Lines.{octets_left, last_number, line_end, TakesLine};

// How many octets of a script count.
pub const MAX_OCTETS: usize = 32_768;

// What is left of a script, and the number of the line that was taken last.
#[derive(Drop)]
pub struct Lines<'a> {
    rest: &'a [u8],
    number: usize,
}

// A line without its end, and its number, from 1.
#[derive(Clone, Copy, Debug, PartialEq, Eq)]
pub struct Numbered<'a> {
    pub line: &'a [u8],
    pub number: usize,
}

impl<'a> Lines<'a> {
    pub fn of(script: &'a [u8]) -> Lines<'a>
        ensures counted { octets_left result ≡ take (min (length script.entry.now) MAX_OCTETS) script.entry.now }
        ensures before_first { last_number result ≡ 0 }
    {
        Lines {
            rest: &script[..script.len().min(MAX_OCTETS)],
            number: 0,
        }
    }
}

impl<'a> Iterator for Lines<'a> {
    type Item = Numbered<'a>;

    ghost next_gives = { TakesLine };

    ghost remaining = { λ lines. at_most (length (octets_left lines)) };

    // What follows the last line end is a line only if it is not empty.
    fn next(&mut self) -> Option<Numbered<'a>> {
        let text = self.rest;
        if text.is_empty() {
            return None;
        }
        let end = line_end(text);
        self.rest = &text[(end + 1).min(text.len())..];
        self.number = self.number.saturating_add(1);
        Some(Numbered {
            line: &text[..end],
            number: self.number,
        })
    }
}

// How many octets come before the first line end, or how many there are.
fn line_end(text: &[u8]) -> usize
    ensures value { result ≡ line_end text.now }
    ensures within { result ≤ length text.now }
{
    text.iter().take_while(|octet| **octet != b'\n').count()
}
