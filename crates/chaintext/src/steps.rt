// The lines of a chain's text, each as a step of the reader.
ghost use Rattle.std.specs.Prelude.{◌≡◌};
ghost use Rattle.chaintext.specs.Steps.{Took, place_of, parts_step, threshold_step, setup_step, alarm_step, part_step, life_step, hazard_step, surplus_step, after_part, dark_step, straight, rising, arc_of, arc_step, chain_step, word_step};

use crate::reader::{ChainReader, Stage};
use chain::limits::{MOST_ARCS, MOST_CHARGE, MOST_DARK, MOST_HAZARD, MOST_LIFE, MOST_THRESHOLD};
use reading::keys::Key;
use reading::rules::Rule;
use reading::values::{number_between, number_list};
use workorder::{Arc, MAX_PARTS};

impl ChainReader {
    // A word that is due, as kind=chain or end=plant. The pair's reader has the like: the stages are of two types, and a trait
    // for both would be longer than the method.
    fn take_word(&mut self, value: &[u8], word: &[u8], next: Stage) -> Result<(), Rule>
        ensures { Took (word_step self.old value.now word.now next) self.old self.new result }
    {
        if value != word {
            return Err(Rule::Unexpected);
        }
        self.stage = next;
        Ok(())
    }

    // parts=1 to 6
    fn take_parts(&mut self, value: &[u8]) -> Result<(), Rule>
        ensures { Took (parts_step self.old value.now) self.old self.new result }
    {
        let n = number_between(value, 1, MAX_PARTS as u32).ok_or(Rule::OutOfRange)?;
        self.head.count = n as usize;
        self.stage = Stage::Threshold;
        Ok(())
    }

    // threshold=0 to 10000. The next two fill other fields and have other lines behind them. As one function with the field
    // lent they would be no plainer: all that they share is the call of number_between.
    fn take_threshold(&mut self, value: &[u8]) -> Result<(), Rule>
        ensures { Took (threshold_step self.old value.now) self.old self.new result }
    {
        let n = number_between(value, 0, MOST_THRESHOLD).ok_or(Rule::OutOfRange)?;
        self.head.threshold = n;
        self.stage = Stage::Setup;
        Ok(())
    }

    // setup, in cents
    fn take_setup(&mut self, value: &[u8]) -> Result<(), Rule>
        ensures { Took (setup_step self.old value.now) self.old self.new result }
    {
        let n = number_between(value, 0, MOST_CHARGE).ok_or(Rule::OutOfRange)?;
        self.head.setup = n;
        self.stage = Stage::Alarm;
        Ok(())
    }

    // alarm, in cents
    fn take_alarm(&mut self, value: &[u8]) -> Result<(), Rule>
        ensures { Took (alarm_step self.old value.now) self.old self.new result }
    {
        let n = number_between(value, 0, MOST_CHARGE).ok_or(Rule::OutOfRange)?;
        self.head.alarm = n;
        self.stage = Stage::Part;
        Ok(())
    }

    // part=1, 2 and so on
    fn take_part(&mut self, value: &[u8]) -> Result<(), Rule>
        ensures { Took (part_step self.old value.now) self.old self.new result }
    {
        if self.opened >= MAX_PARTS {
            return Err(Rule::OutOfRange);
        }
        let due = self.opened as u32 + 1;
        let n = number_between(value, due, due).ok_or(Rule::OutOfRange)?;
        self.opened = n as usize;
        self.stage = Stage::Life;
        Ok(())
    }

    // The place of the part opened last in the table. A method that lends the record itself was tried: of a table of fixed
    // length the check shows no clause that says what the table ends as, and lent as a slice it tells its caller nothing.
    fn place(&self) -> Option<usize>
        ensures { result ≡ place_of self.now }
    {
        self.opened.checked_sub(1).filter(|at| *at < MAX_PARTS)
    }

    // life=1 to 20. This one, surplus and dark share the call of number_between, as those above do.
    fn take_life(&mut self, value: &[u8]) -> Result<(), Rule>
        ensures { Took (life_step self.old value.now) self.old self.new result }
    {
        let at = self.place().ok_or(Rule::Unexpected)?;
        let n = number_between(value, 1, MOST_LIFE as u32).ok_or(Rule::OutOfRange)?;
        let part = &mut self.parts[at];
        part.life = n as usize;
        self.stage = Stage::Hazard;
        Ok(())
    }

    // hazard: one to each age below the life, and zeros beyond
    #[tactic(auto, using(crate::proofs::Lists::hazards_read))]
    fn take_hazard(&mut self, value: &[u8]) -> Result<(), Rule>
        ensures { Took (hazard_step self.old value.now) self.old self.new result }
    {
        let at = self.place().ok_or(Rule::Unexpected)?;
        let hazards = number_list(value, MOST_HAZARD, self.parts[at].life).ok_or(Rule::OutOfRange)?;
        let part = &mut self.parts[at];
        part.hazards = hazards;
        self.stage = Stage::Surplus;
        Ok(())
    }

    // surplus, in cents
    fn take_surplus(&mut self, value: &[u8]) -> Result<(), Rule>
        ensures { Took (surplus_step self.old value.now) self.old self.new result }
    {
        let at = self.place().ok_or(Rule::Unexpected)?;
        let n = number_between(value, 0, MOST_CHARGE).ok_or(Rule::OutOfRange)?;
        let part = &mut self.parts[at];
        part.surplus = n;
        self.stage = Stage::Dark;
        Ok(())
    }

    // What is due after a part: the next one, or the arcs.
    fn after_part(&self) -> Stage
        ensures { result ≡ after_part self.now }
    {
        if self.opened < self.head.count {
            Stage::Part
        } else {
            Stage::Arc
        }
    }

    // dark seconds
    fn take_dark(&mut self, value: &[u8]) -> Result<(), Rule>
        ensures { Took (dark_step self.old value.now) self.old self.new result }
    {
        let at = self.place().ok_or(Rule::Unexpected)?;
        let n = number_between(value, 0, MOST_DARK).ok_or(Rule::OutOfRange)?;
        let part = &mut self.parts[at];
        part.dark = n;
        self.stage = self.after_part();
        Ok(())
    }

    // One line: what is due and the key are matched together, so that every other pair of them is refused in one arm.
    // A refused line leaves the reader as it was.
    pub(crate) fn step(&mut self, key: Key, value: &[u8]) -> Result<(), Rule>
        ensures { Took (chain_step self.old key value.now) self.old self.new result }
    {
        match (self.stage, key) {
            (Stage::Kind, Key::Kind) => self.take_word(value, b"chain", Stage::Parts),
            (Stage::Parts, Key::Parts) => self.take_parts(value),
            (Stage::Threshold, Key::Threshold) => self.take_threshold(value),
            (Stage::Setup, Key::Setup) => self.take_setup(value),
            (Stage::Alarm, Key::Alarm) => self.take_alarm(value),
            (Stage::Part, Key::Part) => self.take_part(value),
            (Stage::Life, Key::Life) => self.take_life(value),
            (Stage::Hazard, Key::Hazard) => self.take_hazard(value),
            (Stage::Surplus, Key::Surplus) => self.take_surplus(value),
            (Stage::Dark, Key::Dark) => self.take_dark(value),
            (Stage::Arc, Key::Arc) => self.take_arc(value),
            (Stage::Arc, Key::End) => self.take_word(value, b"plant", Stage::Done),
            _ => Err(Rule::Unexpected),
        }
    }

    // Whether the arc comes after the last one.
    fn rising(&self, arc: Arc) -> bool
        ensures { result ≡ rising self.now arc }
    {
        self.arcs.get(..self.arc_count).is_some_and(|arcs| {
            arcs.last()
                .is_none_or(|last| (last.from, last.to) < (arc.from, arc.to))
        })
    }

    // arc=from,to,cents
    fn take_arc(&mut self, value: &[u8]) -> Result<(), Rule>
        ensures { Took (arc_step self.old value.now) self.old self.new result }
    {
        let arc = read_arc(value, self.head.count).ok_or(Rule::OutOfRange)?;
        let at = self.arc_count;
        if at >= MOST_ARCS || !is_straight(arc) || !self.rising(arc) {
            return Err(Rule::WrongArc);
        }
        self.arcs[at] = arc;
        self.arc_count = at + 1;
        Ok(())
    }
}

// An arc to a part, and not from itself.
fn is_straight(arc: Arc) -> bool
    ensures { result ≡ straight arc }
{
    arc.to > 0 && arc.from != arc.to
}

// Three numbers: from and to up to the number of parts, and cents.
#[tactic(auto, using(crate::proofs::Lists::three_read))]
fn read_arc(value: &[u8], most: usize) -> Option<Arc>
    ensures { result ≡ arc_of value.now most }
{
    let [from, to, cents] = number_list::<3>(value, MOST_CHARGE, 3)?;
    let arc = Arc::new(from as usize, to as usize, cents);
    (arc.from <= most && arc.to <= most).then_some(arc)
}
