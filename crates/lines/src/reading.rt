// The lines of a text, read one after the other.
ghost use Rattle.std.specs.Prelude.{◌≡◌, ◌+◌, ◌*◌, ◌^◌, ◌<◌, length, ◌==◌};
ghost use Rattle.lines.specs.Line.{said, printable, all_printable, line_of, line_at, rest_at, taken, ReadsAs};

use crate::cutting::split_once;

// The byte that ends a line.
pub const LINE_END: u8 = b'\n';
// The byte between a key and its value.
pub const EQUALS_SIGN: u8 = b'=';
// How long a line may be, without its line end.
pub const LONGEST_LINE: usize = 200;
// The least and the greatest byte that may stand in a line.
pub const LOWEST_BYTE: u8 = 32;

pub const HIGHEST_BYTE: u8 = 126;

// Both faults are numbers for the reason at Line. Refused: the line is too long, has a byte out of range, or no key with an
// equals sign behind it.
pub const BAD_LINE: u8 = 1;
// Refused: the text ends before the line does.
pub const ENDS_EARLY: u8 = 2;

// A line as a view of its text: the key and the value, or the number of the refusal. It is no Result, and the fault no
// enum: each reader makes a refusal of its own type of the fault, which has its number and nothing more to say, as its
// place stands beside the line (docs/DECISIONS.md, 15).
#[derive(Clone, Copy)]
pub enum Line<'a> {
    Pair(&'a [u8], &'a [u8]),
    Fault(u8),
}

// A line with its place, counted from 1.
#[derive(Clone, Copy)]
pub struct Read<'a> {
    pub line: Line<'a>,
    pub place: usize,
}

fn is_printable(b: u8) -> bool
    ensures { result ≡ printable b }
{
    (LOWEST_BYTE..=HIGHEST_BYTE).contains(&b)
}

fn all_printable(bytes: &[u8]) -> bool
    ensures { result ≡ all_printable bytes.now }
{
    bytes.iter().all(|b| is_printable(*b))
}

// The line in `bytes`, which hold no line end.
fn parse_line<'a>(bytes: &'a [u8]) -> Line<'a>
    ensures { said result ≡ line_of bytes.now }
{
    if bytes.len() > LONGEST_LINE || !all_printable(bytes) {
        return Line::Fault(BAD_LINE);
    }
    match split_once(bytes, EQUALS_SIGN) {
        Some((key, value)) if !key.is_empty() => Line::Pair(key, value),
        _ => Line::Fault(BAD_LINE),
    }
}

// The first line of a text, and what it leaves of the text: all of it where the line is a fault.
struct FirstLine<'a> {
    line: Line<'a>,
    rest: &'a [u8],
}

fn first_line<'a>(text: &'a [u8]) -> FirstLine<'a>
    ensures line { said result.line ≡ line_at text.now }
    ensures rest { result.rest.now ≡ rest_at text.now }
{
    let Some((front, behind)) = split_once(text, LINE_END) else {
        return FirstLine {
            line: Line::Fault(ENDS_EARLY),
            rest: text,
        };
    };
    let line = parse_line(front);
    let rest = match line {
        Line::Pair(_, _) => behind,
        Line::Fault(_) => text,
    };
    FirstLine { line, rest }
}

// The lines of a text that are still to be read.
#[derive(Drop)]
pub struct Lines<'a> {
    rest: &'a [u8],
    // how many lines were read
    place: usize,
    // each line takes more than two bytes, so their number fits
    ghost few: { 2 * place + length rest.now < 2 ^ 64 },
}

impl<'a> Lines<'a> {
    pub fn new(text: &'a [u8]) -> Self
        ensures rest { result.rest.now ≡ text.now }
        ensures place { result.place ≡ 0 }
    {
        Lines {
            rest: text,
            place: 0,
        }
    }

    // Whether the text is at its end.
    pub fn at_end(&self) -> bool
        ensures { result ≡ (length self.now.rest.now == 0) }
    {
        self.rest.is_empty()
    }

    // Reads the next line. A fault stays where it is, to be read again.
    pub fn next_line(&mut self) -> Read<'a>
        ensures line { said result.line ≡ line_at self.old.rest.now }
        ensures rest { self.new.rest.now ≡ rest_at self.old.rest.now }
        ensures place { result.place ≡ self.old.place + 1 }
        ensures count { self.new.place ≡ self.old.place + taken (said result.line) }
        ensures law { ReadsAs self.old.rest.now (said result.line) self.new.rest.now }
    {
        let place = self.place + 1;
        let FirstLine { line, rest } = first_line(self.rest);
        self.rest = rest;
        if let Line::Pair(_, _) = line {
            self.place = place;
        }
        Read { line, place }
    }
}
