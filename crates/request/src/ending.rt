// The end of the text.
ghost use Rattle.std.specs.Prelude.{◌≡◌, ◌+◌};
ghost use Rattle.lines.specs.Line.{said, line_at, rest_at, taken};
ghost use Rattle.request.specs.Requests.{goes_on, read_end};
ghost use Rattle.request.specs.Writing.{ReadsEnd};

use lines::reading::{Line, Lines, Read};
use reading::rules::{ReadRefusal, Rule};

// The rule that a line breaks which should not be there. No From: both types are of crates below.
fn goes_on(line: Line) -> Rule
    ensures { result ≡ goes_on (said line.entry) }
{
    match line {
        Line::Pair(_, _) => Rule::Unexpected,
        Line::Fault(fault) => Rule::from(fault),
    }
}

// Refuses a text that goes on.
pub fn read_end(lines: &mut Lines) -> Result<(), ReadRefusal>
    ensures value { result ≡ read_end lines.old.rest.now lines.old.place }
    ensures rest { lines.new.rest.now ≡ rest_at lines.old.rest.now }
    ensures count { lines.new.place ≡ lines.old.place + taken (line_at lines.old.rest.now) }
    ensures law { ReadsEnd lines.old.rest.now result }
{
    let ended = lines.at_end();
    let Read { line, place } = lines.next_line();
    if ended {
        return Ok(());
    }
    Err(ReadRefusal {
        rule: goes_on(line),
        line: place,
    })
}
