// The sweeps line.
ghost use Rattle.std.specs.Prelude.{◌≡◌, ◌+◌};
ghost use Rattle.lines.specs.Line.{line_at, rest_at, taken};
ghost use Rattle.request.specs.Writing.{ReadsSweeps, counted};
ghost use Rattle.request.specs.Requests.{sweeps_of, read_sweeps};

use crate::due::read_due;
use lines::reading::Lines;
use planner::plan::MOST_SWEEPS;
use reading::keys::Key;
use reading::rules::{ReadRefusal, Rule};
use reading::values::number_between;

// The number of sweeps, and the line that names it.
#[derive(Clone, Copy, PartialEq, Eq, Debug)]
pub struct SweepsLine {
    pub count: u32,
    pub line: usize,
}

fn sweeps_of(value: &[u8]) -> Result<u32, Rule>
    ensures { result ≡ sweeps_of value.now }
{
    number_between(value, 0, MOST_SWEEPS).ok_or(Rule::OutOfRange)
}

// Reads the sweeps line.
pub fn read_sweeps(lines: &mut Lines) -> Result<SweepsLine, ReadRefusal>
    ensures value { result ≡ read_sweeps lines.old.rest.now lines.old.place }
    ensures rest { lines.new.rest.now ≡ rest_at lines.old.rest.now }
    ensures count { lines.new.place ≡ lines.old.place + taken (line_at lines.old.rest.now) }
    ensures law { ReadsSweeps lines.old.rest.now (counted result) lines.new.rest.now }
{
    let read = lines.next_line();
    read_due(read, Key::Sweeps, sweeps_of).map(|count| SweepsLine {
        count,
        line: read.place,
    })
}
