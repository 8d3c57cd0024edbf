// The settings of a call.
ghost use Rattle.std.specs.Prelude.{◌<◌, ◌≤◌};

// Settings as they were asked for, in range or not.
#[derive(Clone, Copy, Debug, PartialEq, Eq)]
pub struct Wanted {
    // How many transmissions may be open together.
    pub limit: u8,
    // How many claims may wait.
    pub line: u8,
    // How many seconds a transmission stands before it is recalled.
    pub talk: u16,
    // How many seconds a recalled transmission has before it is ended.
    pub grace: u16,
    // How many rows of the register the call may grant.
    pub rows: u16,
    pub server: u32,
}

// Settings in their ranges.
#[derive(Clone, Copy, Debug, PartialEq, Eq)]
pub struct Settings {
    pub limit: u8,
    pub line: u8,
    pub talk: u16,
    pub grace: u16,
    pub rows: u16,
    pub server: u32,
    ghost some_limit: { 0 < limit },
    ghost most_limit: { limit ≤ 16 },
    ghost some_line: { 0 < line },
    ghost most_line: { line ≤ 32 },
    ghost some_talk: { 0 < talk },
    ghost some_grace: { 0 < grace },
    ghost most_grace: { grace ≤ 600 },
    ghost some_rows: { 0 < rows },
    ghost most_rows: { rows ≤ 2000 },
    ghost some_server: { 0 < server },
}
