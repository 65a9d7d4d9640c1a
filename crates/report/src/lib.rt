//! What the program `sizes` does: lines in, a line of numbers or a refusal out.
#![tactic(auto)]

ghost use Rattle.std.specs.Prelude.{◌≡◌, option_map, ℕ, ◌<◌, List, [], ◌∷◌, ◌++◌, IfSome};
ghost use Rattle.report.specs.Line.{hex_digit, set_of_line, Keeps};

use messages::Words;
use sets::{ParameterSet, Set};
use std::fmt;
use std::fmt::Write;
use std::io::Read;

/// The number of standard output.
const STDOUT: i32 = 1;

/// The value of a lower-case hex digit.
fn hex_digit(c: u8) -> Option<u8>
    ensures value { result ≡ hex_digit c }
    ensures small { IfSome result (λ d. d < 16) }
{
    match c {
        b'0'..=b'9' => Some(c - b'0'),
        b'a'..=b'f' => Some(c - b'a' + 10),
        _ => None,
    }
}

/// What is kept of a line while it is read: its first two bytes, and whether it has more.
#[derive(Clone, Copy)]
pub enum Line {
    Empty,
    One(u8),
    Two(u8, u8),
    Long(u8, u8),
}

impl Line {
    pub fn new() -> Line
        ensures { Keeps result [] }
    {
        Line::Empty
    }

    /// The line with one byte more.
    pub fn with(self, b: u8) -> Line
        ensures { (l : List ℕ) → Keeps self l → Keeps result (l ++ (b ∷ [])) }
    {
        match self {
            Line::Empty => Line::One(b),
            Line::One(a) => Line::Two(a, b),
            Line::Two(first, second) => Line::Long(first, second),
            Line::Long(first, second) => Line::Long(first, second),
        }
    }

    /// The set that the line names.
    pub fn names(self) -> Option<ParameterSet>
        ensures { (l : List ℕ) → Keeps self l → option_map (λ p. p.set) result ≡ set_of_line l }
    {
        let Line::Two(a, b) = self else {
            return None;
        };
        sets::find(16 * hex_digit(a)? + hex_digit(b)?)
    }
}

/// The line that is printed of a set.
#[derive(Clone, Copy)]
struct Sizes(Set);

impl fmt::Display for Sizes {
    fn fmt<W: fmt::Write>(&self, f: &mut fmt::Formatter<W>) -> fmt::Result {
        let s = self.0;
        write!(
            f,
            "set {} n {} k {} t {} w {}",
            s.number, s.n, s.k, s.t, s.w
        )?;
        write!(
            f,
            " public {} private {} cipher {} message {}",
            s.public, s.private, s.cipher, s.k1
        )
    }
}

/// How long the line of a set may be; each is shorter.
const ROOM: usize = 160;

/// A line in the making, in memory of its own. The library's `InlineText` does the same, and sees to it that what it cuts is text still: with
/// it a line took a third more time.
#[derive(Clone, Copy)]
struct Text {
    room: [u8; ROOM],
    len: usize,
}

impl Text {
    fn new() -> Text {
        Text {
            room: [0; ROOM],
            len: 0,
        }
    }

    fn bytes(&self) -> &[u8] {
        &self.room[..self.len.min(ROOM)]
    }
}

impl Write for Text {
    fn write_str(&mut self, s: &str) -> fmt::Result {
        if ROOM < self.len || ROOM - self.len < s.len() {
            return Err(fmt::Error);
        }
        let end = self.len + s.len();
        self.room[self.len..end].copy_from_slice(s.as_bytes());
        self.len = end;
        Ok(())
    }
}

/// What is written for a line.
fn answer(line: Line) {
    let Some(parameters) = line.names() else {
        io::write_all(STDOUT, b"refused 1\n");
        return;
    };
    let mut text = Text::new();
    let _ = writeln!(text, "{}", Sizes(parameters.set));
    io::write_all(STDOUT, text.bytes());
}

/// One byte more of the input: a line feed ends the line.
fn step(line: Line, b: u8) -> Line {
    if b == b'\n' {
        answer(line);
        return Line::new();
    }
    line.with(b)
}

fn feed(line: Line, s: &[u8]) -> Line {
    let mut now = line;
    for &b in s {
        now = step(now, b);
    }
    now
}

/// Answers each line of standard input; a last one with no line feed counts if it is not empty.
pub fn run(rt: &(impl Input + Eprint)) {
    let mut space = io::large_buffer();
    let mut line = Line::new();
    let mut input = rt.reader();
    // Kept as reads into one buffer: lines of a `BufRead` would need memory for a line of any length.
    for _ in 0..u64::MAX {
        match input.read(&mut space) {
            Err(error) => {
                let _ = eprintln!(rt; "standard input: {}", Words(error));
                return;
            }
            Ok(0) => break,
            Ok(n) => line = feed(line, &space[..n]),
        }
    }
    if !matches!(line, Line::Empty) {
        answer(line);
    }
}
