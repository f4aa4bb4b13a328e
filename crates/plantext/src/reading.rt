// A whole plan, read from its text.
ghost use Rattle.std.specs.Prelude.{◌≡◌, ℕ, ◌<◌, ◌≤◌, List, map, length, replicate, Some};
ghost use Rattle.plantext.specs.Reading.{value_fault, pair_fault};
ghost use Rattle.plantext.specs.Answers.{PlanAnswer, PlanRead, GivesBack};
ghost use Rattle.plantext.specs.Progress.{after_row, progress, TakesStates, TakesLow, TakesHigh, TakesRow, TakesEnd, TakesDue, InsideDue, Judged, ReadsLine, ReadsBehind};
ghost use Rattle.interface.specs.Limits.{most_states};
ghost use Rattle.interface.specs.Rows.{Row, zeros};

use crate::refusal::{Fault, PlanRefusal};
use crate::stage::{END, HIGH, LOW, PLAN, ROW, STATES, Stage};
use crate::values::{StateEntry, read_amount, read_count, read_entry};
use interface::claims::Claims;
use interface::tariff::Tariff;
use lines::reading::{Line, Lines, Read};

// The line behind the row of a state.
fn row_after(states: usize, state: usize) -> Stage
    requires { state < states }
    ensures { result ≡ after_row states state }
{
    let next = state + 1;
    if next < states {
        Stage::Row(next)
    } else {
        Stage::End
    }
}

// How far a plan has been read: the line that is due, the number of states and the claims. The tables stay parameters:
// lent into the reader, each of its methods would owe besides that it still holds the caller's. Nor are they one record:
// each is lent by itself, so each has its own length to be inside of, until the first line has told that they are level.
#[derive(Drop)]
pub(crate) struct Reader<A> {
    due: Option<Stage>,
    states: usize,
    claims: Claims<A>,
}

impl<A: Copy> Reader<A> {
    fn take_states(&mut self, value: &[u8]) -> Result<(), Fault>
        ensures { (row : A → Row) (vs : List A) (xs : List ℕ) → Judged result (value_fault 0 Stage.States value.now) (TakesStates value.now (progress row self.old vs xs) (progress row self.new vs xs)) }
    {
        self.states = read_count(value).ok_or(Fault::OutOfForm)?;
        self.due = Some(Stage::Low);
        Ok(())
    }

    // The next one fills another field and has another line behind it. As one function with the field lent they would be no
    // plainer: all that they share is the call of read_amount.
    fn take_low<T: Tariff<Amount = A>>(&mut self, tariff: &T, value: &[u8]) -> Result<(), Fault>
        ensures { (vs : List A) (xs : List ℕ) → Judged result (value_fault (T.scale tariff.now).places Stage.Low value.now) (TakesLow (T.scale tariff.now).places value.now (progress T.Tariff.row self.old vs xs) (progress T.Tariff.row self.new vs xs)) }
    {
        self.claims.low = read_amount(tariff, value).ok_or(Fault::OutOfForm)?;
        self.due = Some(Stage::High);
        Ok(())
    }

    fn take_high<T: Tariff<Amount = A>>(&mut self, tariff: &T, value: &[u8]) -> Result<(), Fault>
        ensures { (vs : List A) (xs : List ℕ) → Judged result (value_fault (T.scale tariff.now).places Stage.High value.now) (TakesHigh (T.scale tariff.now).places value.now (progress T.Tariff.row self.old vs xs) (progress T.Tariff.row self.new vs xs)) }
    {
        self.claims.high = read_amount(tariff, value).ok_or(Fault::OutOfForm)?;
        self.due = Some(Stage::Row(0));
        Ok(())
    }

    fn take_row<T: Tariff<Amount = A>>(
        &mut self,
        tariff: &T,
        state: usize,
        value: &[u8],
        values: &mut [A],
        policy: &mut [u16],
    ) -> Result<(), Fault>
        requires values { state < length values.old }
        requires policy { state < length policy.old }
        ensures { Judged result (value_fault (T.scale tariff.now).places (Stage.Row state) value.now) (TakesRow (T.scale tariff.now).places state value.now (progress T.Tariff.row self.old values.old policy.old) (progress T.Tariff.row self.new values.new policy.new)) }
    {
        let entry = read_entry(tariff, state, value).ok_or(Fault::OutOfForm)?;
        let StateEntry { portfolio, value } = entry;
        values[state] = value;
        policy[state] = portfolio;
        self.due = Some(row_after(values.len(), state));
        Ok(())
    }

    fn take_end(&mut self, value: &[u8]) -> Result<(), Fault>
        ensures { (row : A → Row) (vs : List A) (xs : List ℕ) → Judged result (value_fault 0 Stage.End value.now) (TakesEnd (progress row self.old vs xs) (progress row self.new vs xs)) }
    {
        if value != PLAN {
            return Err(Fault::NotDue);
        }
        self.due = None;
        Ok(())
    }

    // Takes the line that is due: its value goes where it belongs, and the next line is due. What is due and the key are
    // matched together, so that every other pair of them is refused in one arm.
    fn take<T: Tariff<Amount = A>>(
        &mut self,
        tariff: &T,
        key: &[u8],
        value: &[u8],
        values: &mut [A],
        policy: &mut [u16],
    ) -> Result<(), Fault>
        requires values { InsideDue (length values.old) self.old.due }
        requires policy { InsideDue (length policy.old) self.old.due }
        ensures judged { Judged result (pair_fault (T.scale tariff.now).places self.old.due key.now value.now) (TakesDue (T.scale tariff.now).places self.old.due value.now (progress T.Tariff.row self.old values.old policy.old) (progress T.Tariff.row self.new values.new policy.new)) }
        ensures kept { self.old.due ≡ Some Stage.States → (values.new ≡ values.old) × (policy.new ≡ policy.old) }
    {
        match (self.due, key) {
            (Some(Stage::States), STATES) => self.take_states(value),
            (Some(Stage::Low), LOW) => self.take_low(tariff, value),
            (Some(Stage::High), HIGH) => self.take_high(tariff, value),
            (Some(Stage::Row(state)), ROW) => self.take_row(tariff, state, value, values, policy),
            (Some(Stage::End), END) => self.take_end(value),
            _ => Err(Fault::NotDue),
        }
    }

    // Reads the next line, which has to be the one that is due.
    fn read_line<T: Tariff<Amount = A>>(
        &mut self,
        tariff: &T,
        lines: &mut Lines,
        values: &mut [A],
        policy: &mut [u16],
    ) -> Result<(), PlanRefusal>
        requires values { InsideDue (length values.old) self.old.due }
        requires policy { InsideDue (length policy.old) self.old.due }
        ensures line { ReadsLine (T.scale tariff.now).places (progress T.Tariff.row self.old values.old policy.old) (progress T.Tariff.row self.new values.new policy.new) lines.old.rest.now lines.new.rest.now lines.old.place lines.new.place result }
        ensures kept { self.old.due ≡ Some Stage.States → (values.new ≡ values.old) × (policy.new ≡ policy.old) }
    {
        let Read { line, place } = lines.next_line();
        match line {
            Line::Pair(key, value) => self
                .take(tariff, key, value, values, policy)
                .map_err(|fault| PlanRefusal::AtLine(fault, place)),
            Line::Fault(number) => Err(PlanRefusal::AtLine(Fault::from(number), place)),
        }
    }

    // Reads the lines behind the first, up to the end of the text. Behind the last nothing is due, so a line there is refused.
    fn read_behind<T: Tariff<Amount = A>>(
        &mut self,
        tariff: &T,
        lines: &mut Lines,
        values: &mut [A],
        policy: &mut [u16],
    ) -> Result<(), PlanRefusal>
        requires due { self.old.due ≡ Some Stage.Low }
        requires level { length policy.old ≡ length values.old }
        requires states { 1 ≤ length values.old }
        requires few { length values.old ≤ most_states }
        ensures { ReadsBehind (T.scale tariff.now).places (length values.old) (progress T.Tariff.row self.new values.new policy.new).plan lines.old.rest.now lines.old.place result }
    {
        // The reader keeps what is due, so a `for` over the lines' numbers would count what that tells already.
        while self.due.is_some() {
            self.read_line(tariff, lines, values, policy)?;
        }
        if !lines.at_end() {
            self.read_line(tariff, lines, values, policy)?;
        }
        Ok(())
    }
}

// Reads a plan into the tables, which are left as they come where a line is refused. They are lent one by one for the reason
// at Reader.
fn read_into<T: Tariff>(
    tariff: &T,
    text: &[u8],
    values: &mut [T::Amount],
    policy: &mut [u16],
) -> Result<Claims<T::Amount>, PlanRefusal>
    ensures { PlanRead T.Tariff.row (T.scale tariff.now).places text.now (record { values = values.old; policy = policy.old }) (record { values = values.new; policy = policy.new }) result }
{
    let mut lines = Lines::new(text);
    let zero = tariff.zero();
    let mut reader = Reader {
        due: Some(Stage::States),
        states: 0,
        claims: Claims {
            low: zero,
            high: zero,
        },
    };
    reader.read_line(tariff, &mut lines, values, policy)?;
    if reader.states != values.len() || reader.states != policy.len() {
        return Err(PlanRefusal::WrongLength);
    }
    reader.read_behind(tariff, &mut lines, values, policy)?;
    Ok(reader.claims)
}

// Reads a plan into the tables, and zeroes them where a line is refused.
fn read_or_clear<T: Tariff>(
    tariff: &T,
    text: &[u8],
    values: &mut [T::Amount],
    policy: &mut [u16],
) -> Result<Claims<T::Amount>, PlanRefusal>
    ensures { PlanAnswer T.Tariff.row (T.scale tariff.now).places text.now (record { values = values.old; policy = policy.old }) (record { values = values.new; policy = policy.new }) result }
{
    let read = read_into(tariff, text, values, policy);
    if let Err(PlanRefusal::AtLine(_, _)) = read {
        values.fill_with(|| tariff.zero());
        policy.fill(0);
    }
    read
}

// Reads a plan into the tables, which have an entry for each of its states, and gives its claims. Exactly the texts of
// such plans are accepted. Where a line is refused, both tables are zeroed; where a length is, they are as they were.
pub fn read_plan<T: Tariff>(
    tariff: &T,
    text: &[u8],
    values: &mut [T::Amount],
    policy: &mut [u16],
) -> Result<Claims<T::Amount>, PlanRefusal>
    ensures answer { PlanAnswer T.Tariff.row (T.scale tariff.now).places text.now (record { values = values.old; policy = policy.old }) (record { values = values.new; policy = policy.new }) result }
    ensures law { GivesBack T.Tariff.row (T.scale tariff.now).places text.now (record { values = values.old; policy = policy.old }) (record { values = values.new; policy = policy.new }) result }
{
    read_or_clear(tariff, text, values, policy)
}
