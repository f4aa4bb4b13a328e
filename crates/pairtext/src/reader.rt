// What was read so far of a pair's text.
ghost use Rattle.std.specs.Prelude.{◌≡◌};
ghost use Rattle.pairtext.specs.Readers.{fresh};

use crate::stage::{Stage, UnitName};
use pair::limits::MOST_GRADES;
use pair::numbers::UnitNumbers;

// A unit of which nothing was read.
const BLANK_UNIT: UnitNumbers = UnitNumbers {
    grades: 0,
    rows: [[0; MOST_GRADES]; MOST_GRADES],
    planned: 0,
    forced: 0,
    dark: 0,
};

// The records of the units stand in a fixed table, of which the one opened last is filled: a rule of the project
// (docs/DECISIONS.md, 36). PairNumbers, which have two fields there, are made of the reader where the text ends.
#[derive(Clone, Copy)]
pub struct PairReader {
    pub(crate) stage: Stage,
    pub(crate) threshold: u32,
    pub(crate) setup: u32,
    pub(crate) inspect: u32,
    pub(crate) units: [UnitNumbers; 2],
    // The unit opened last, or else the one to be opened.
    pub(crate) opened: UnitName,
    // The index of its row that is due.
    pub(crate) row: usize,
}

impl PairReader {
    // A reader of which the first line is due.
    pub fn new() -> Self
        ensures { result ≡ fresh }
    {
        PairReader {
            stage: Stage::KindDue,
            threshold: 0,
            setup: 0,
            inspect: 0,
            units: [BLANK_UNIT; 2],
            opened: UnitName::One,
            row: 0,
        }
    }
}
