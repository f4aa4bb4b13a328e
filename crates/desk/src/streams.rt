ghost use Rattle.std.specs.Prelude.{◌≡◌, ◌+◌, ◌^◌, ◌<◌, false, [], ◌∷◌, length, IfSome};
ghost use Rattle.std.specs.Io.KnownBytes.{Consumes};
ghost use Rattle.desk.specs.Histories.{newest};
ghost use Rattle.desk.specs.Streams.{kept, ReadsLine, heard_line, said_line};

use crate::terminal::{HEARD_ROOM, Heard, Terminal};
use http_server::Log;
use lines::reading::LINE_END;
use plantext::line::LineText;
use std::io::{Read, Write};

// One byte more of a line: of a line that is too long only the beginning is kept, and the line end.
fn keep(line: &mut Heard, byte: u8)
    ensures { line.new.items ≡ kept line.old.items byte }
{
    if byte == LINE_END || line.len() + 1 < HEARD_ROOM {
        let _ = line.try_push(byte);
    }
}

// The next byte; none at the end or where the stream fails.
fn next_byte<R: Read>(reader: &mut R) -> Option<u8>
    ensures { IfSome result (λ b.
        Consumes (R.remaining reader.old) (R.remaining reader.new) (b ∷ [])) }
{
    let mut byte = [0; 1];
    match reader.read_exact(&mut byte) {
        Ok(()) => Some(byte[0]),
        Err(_) => None,
    }
}

// What is kept of the next line of a stream, with its line end; nothing at the end or where the
// stream fails.
fn read_line<R: Read>(reader: &mut R) -> Heard
    ensures { ReadsLine (R.remaining reader.old) result.items }
{
    let mut line = Heard::new();
    for _ in 0..u64::MAX {
        let Some(byte) = next_byte(reader) else {
            break;
        };
        keep(&mut line, byte);
        if byte == LINE_END {
            break;
        }
    }
    line
}

// Writes a text at once; whether the stream took it.
fn write_now<W: Write>(writer: &mut W, text: &[u8]) -> bool {
    writer.write_all(text).is_ok() && writer.flush().is_ok()
}

/// A terminal of two streams: lines are heard from the one and said to the other.
#[derive(Drop)]
pub struct Streams<R, W> {
    reader: R,
    writer: W,
    // how many lines were heard
    lines: usize,
    // whether nothing more is heard: the reader came to its end, or the writer did not take a line
    ended: bool,
    // the lines that were heard and said, for proofs alone
    heard: Log<Heard, ()>,
    said: Log<LineText, ()>,
    ghost counted: { lines ≡ length (newest heard_line heard.items) },
}

impl<R: Read, W: Write> Streams<R, W> {
    /// A terminal of these streams.
    pub fn new(reader: R, writer: W) -> Streams<R, W>
        ensures heard { result.heard.items ≡ [] }
        ensures said { result.said.items ≡ [] }
        ensures goes_on { result.ended ≡ false }
    {
        Streams {
            reader,
            writer,
            lines: 0,
            ended: false,
            heard: Log::new(),
            said: Log::new(),
        }
    }
}

impl<R, W> Streams<R, W> {
    // The number of the line that is heard next; none where nothing more is heard.
    fn next_number(&self) -> Option<usize>
        ensures next { IfSome result (λ n. n ≡ self.now.lines + 1) }
        ensures few { self.now.lines < 2 ^ 64 }
    {
        let next = self.lines.checked_add(1)?;
        (!self.ended).then_some(next)
    }
}

impl<R: Read, W: Write> Terminal for Streams<R, W> {
    ghost heard = { λ s. newest heard_line s.heard.items };

    ghost said = { λ s. newest said_line s.said.items };

    ghost ended = { λ s. s.ended };

    fn hear(&mut self) -> Option<Heard> {
        let Some(lines) = self.next_number() else {
            self.ended = true;
            return None;
        };
        let line = read_line(&mut self.reader);
        if line.is_empty() {
            self.ended = true;
            return None;
        }
        self.lines = lines;
        self.heard = self.heard.and(&line, &());
        Some(line)
    }

    fn lines(&self) -> usize {
        self.lines
    }

    fn say(&mut self, line: &LineText) {
        self.ended |= !write_now(&mut self.writer, line.as_slice());
        self.said = self.said.and(line, &());
    }
}
