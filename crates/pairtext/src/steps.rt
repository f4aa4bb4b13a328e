// One line of a pair's text, taken by the stage of the reader and the line's key.
ghost use Rattle.std.specs.Prelude.{◌≡◌, ◌<◌, ◌≤◌};
ghost use Rattle.lines.specs.Line.{said};
ghost use Rattle.pair.specs.Limits.{most_grades};
ghost use Rattle.pairtext.specs.Readers.{at_stage, opened_unit};
ghost use Rattle.pairtext.specs.Steps.{on_word, take_threshold, take_setup, take_inspect, take_unit, take_grades, take_row, take_planned, take_forced, take_dark, line_step, answer_of, reader_after};
ghost use Rattle.pairtext.specs.Sound.{Sound};

use crate::reader::PairReader;
use crate::rows::row_of;
use crate::stage::{Stage, UnitName};
use lines::reading::Line;
use pair::limits::{LEAST_GRADES, MOST_CHARGE, MOST_DARK, MOST_GRADES, MOST_THRESHOLD};
use reading::keys::Key;
use reading::rules::Rule;
use reading::values::number_between;

// The words after kind= and end=.
const KIND: &[u8] = b"pair";

const END: &[u8] = b"plant";

// A method for each number, which fills another field and names another stage behind it. As one function with the field lent
// they would be no plainer: all that they share is the call of number_between.
impl PairReader {
    // The word that is due, behind which comes the next stage. The chain's reader has the like: the stages are of two types,
    // and a trait for both would be longer than the method.
    fn take_word(&mut self, value: &[u8], word: &[u8], next: Stage) -> Result<(), Rule>
        ensures answer { result ≡ answer_of (on_word value.now word.now (at_stage next self.old)) }
        ensures after { self.new ≡ reader_after self.old (on_word value.now word.now (at_stage next self.old)) }
    {
        if value != word {
            return Err(Rule::Unexpected);
        }
        self.stage = next;
        Ok(())
    }

    fn take_threshold(&mut self, value: &[u8]) -> Result<(), Rule>
        ensures answer { result ≡ answer_of (take_threshold self.old value.now) }
        ensures after { self.new ≡ reader_after self.old (take_threshold self.old value.now) }
    {
        self.threshold = number_between(value, 0, MOST_THRESHOLD).ok_or(Rule::OutOfRange)?;
        self.stage = Stage::SetupDue;
        Ok(())
    }

    fn take_setup(&mut self, value: &[u8]) -> Result<(), Rule>
        ensures answer { result ≡ answer_of (take_setup self.old value.now) }
        ensures after { self.new ≡ reader_after self.old (take_setup self.old value.now) }
    {
        self.setup = number_between(value, 0, MOST_CHARGE).ok_or(Rule::OutOfRange)?;
        self.stage = Stage::InspectDue;
        Ok(())
    }

    fn take_inspect(&mut self, value: &[u8]) -> Result<(), Rule>
        ensures answer { result ≡ answer_of (take_inspect self.old value.now) }
        ensures after { self.new ≡ reader_after self.old (take_inspect self.old value.now) }
    {
        self.inspect = number_between(value, 0, MOST_CHARGE).ok_or(Rule::OutOfRange)?;
        self.stage = Stage::UnitDue;
        Ok(())
    }

    fn take_unit(&mut self, value: &[u8]) -> Result<(), Rule>
        ensures answer { result ≡ answer_of (take_unit self.old value.now) }
        ensures after { self.new ≡ reader_after self.old (take_unit self.old value.now) }
    {
        let due = self.opened.number();
        number_between(value, due, due).ok_or(Rule::OutOfRange)?;
        self.stage = Stage::GradesDue;
        Ok(())
    }

    fn take_grades(&mut self, value: &[u8]) -> Result<(), Rule>
        ensures answer { result ≡ answer_of (take_grades self.old value.now) }
        ensures after { self.new ≡ reader_after self.old (take_grades self.old value.now) }
    {
        let grades = number_between(value, LEAST_GRADES as u32, MOST_GRADES as u32);
        self.units[self.opened.index()].grades = grades.ok_or(Rule::OutOfRange)? as usize;
        self.row = 0;
        self.stage = Stage::RowDue;
        Ok(())
    }

    fn take_row(&mut self, value: &[u8]) -> Result<(), Rule>
        requires { ((opened_unit self.old).grades ≤ most_grades) × (self.old.row < most_grades) }
        ensures answer { result ≡ answer_of (take_row self.old value.now) }
        ensures after { self.new ≡ reader_after self.old (take_row self.old value.now) }
    {
        let at = self.opened.index();
        let grades = self.units[at].grades;
        let own = self.row;
        self.units[at].rows[own] = row_of(value, grades, own).ok_or(Rule::OutOfRange)?;
        let read = own + 1;
        self.row = read;
        self.stage = if read + 1 == grades {
            Stage::PlannedDue
        } else {
            Stage::RowDue
        };
        Ok(())
    }

    fn take_planned(&mut self, value: &[u8]) -> Result<(), Rule>
        ensures answer { result ≡ answer_of (take_planned self.old value.now) }
        ensures after { self.new ≡ reader_after self.old (take_planned self.old value.now) }
    {
        self.units[self.opened.index()].planned = number_between(value, 0, MOST_CHARGE).ok_or(
            Rule::OutOfRange,
        )?;
        self.stage = Stage::ForcedDue;
        Ok(())
    }

    fn take_forced(&mut self, value: &[u8]) -> Result<(), Rule>
        ensures answer { result ≡ answer_of (take_forced self.old value.now) }
        ensures after { self.new ≡ reader_after self.old (take_forced self.old value.now) }
    {
        self.units[self.opened.index()].forced = number_between(value, 0, MOST_CHARGE).ok_or(
            Rule::OutOfRange,
        )?;
        self.stage = Stage::DarkDue;
        Ok(())
    }

    fn take_dark(&mut self, value: &[u8]) -> Result<(), Rule>
        ensures answer { result ≡ answer_of (take_dark self.old value.now) }
        ensures after { self.new ≡ reader_after self.old (take_dark self.old value.now) }
    {
        self.units[self.opened.index()].dark = number_between(value, 0, MOST_DARK).ok_or(
            Rule::OutOfRange,
        )?;
        match self.opened {
            UnitName::One => {
                self.opened = UnitName::Two;
                self.stage = Stage::UnitDue;
            }
            UnitName::Two => self.stage = Stage::EndDue,
        }
        Ok(())
    }

    // Takes one line and moves on: the stage and the key are matched together, so that every other pair of them is refused in
    // one arm. A refused line leaves the reader as it was.
    pub(crate) fn step(&mut self, line: Line) -> Result<(), Rule>
        requires { Sound self.old }
        ensures answer { result ≡ answer_of (line_step self.old (said line.entry)) }
        ensures after { self.new ≡ reader_after self.old (line_step self.old (said line.entry)) }
    {
        let (key, value) = match line {
            Line::Pair(name, value) => (Key::from(name), value),
            Line::Fault(fault) => return Err(Rule::from(fault)),
        };
        match (self.stage, key) {
            (Stage::KindDue, Key::Kind) => self.take_word(value, KIND, Stage::ThresholdDue),
            (Stage::ThresholdDue, Key::Threshold) => self.take_threshold(value),
            (Stage::SetupDue, Key::Setup) => self.take_setup(value),
            (Stage::InspectDue, Key::Inspect) => self.take_inspect(value),
            (Stage::UnitDue, Key::Unit) => self.take_unit(value),
            (Stage::GradesDue, Key::Grades) => self.take_grades(value),
            (Stage::RowDue, Key::Row) => self.take_row(value),
            (Stage::PlannedDue, Key::Planned) => self.take_planned(value),
            (Stage::ForcedDue, Key::Forced) => self.take_forced(value),
            (Stage::DarkDue, Key::Dark) => self.take_dark(value),
            (Stage::EndDue, Key::End) => self.take_word(value, END, Stage::Complete),
            _ => Err(Rule::Unexpected),
        }
    }
}
