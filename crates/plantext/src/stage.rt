// The lines of a plan by what stands in them.
ghost use Rattle.std.specs.Prelude.{◌≡◌, ◌≤◌, length, IfSome};
ghost use Rattle.std.specs.List.{slice_get};
ghost use Rattle.plantext.specs.Lines.{stages, Inside};
ghost use Rattle.plantext.specs.Reading.{key_of};

use std::cmp::Ordering;

// The keys of a plan's lines, and the word of the last.
pub const STATES: &[u8] = b"states";

pub const LOW: &[u8] = b"low";

pub const HIGH: &[u8] = b"high";

pub const ROW: &[u8] = b"row";

pub const END: &[u8] = b"end";

pub const PLAN: &[u8] = b"plan";

// How many lines of a plan stand before its rows.
pub const LINES_BEFORE_ROWS: usize = 3;

// A line of a plan: the number of states, the claims, the row of a state, the end.
#[derive(Clone, Copy)]
pub enum Stage {
    States,
    Low,
    High,
    Row(usize),
    End,
}

impl Stage {
    // The key of the line.
    pub(crate) fn key(self) -> &'static [u8]
        ensures key { result.now ≡ key_of self }
        ensures short { length result.now ≤ 6 }
    {
        match self {
            Stage::States => STATES,
            Stage::Low => LOW,
            Stage::High => HIGH,
            Stage::Row(_) => ROW,
            Stage::End => END,
        }
    }

    // Line j of a plan with so many states, absent past the last.
    pub(crate) fn at(states: usize, j: usize) -> Option<Stage>
        ensures value { result ≡ slice_get (stages states) j }
        ensures inside { IfSome result (Inside states) }
    {
        match j {
            0 => Some(Stage::States),
            1 => Some(Stage::Low),
            2 => Some(Stage::High),
            _ => {
                let state = j - LINES_BEFORE_ROWS;
                match state.cmp(&states) {
                    Ordering::Less => Some(Stage::Row(state)),
                    Ordering::Equal => Some(Stage::End),
                    Ordering::Greater => None,
                }
            }
        }
    }
}
