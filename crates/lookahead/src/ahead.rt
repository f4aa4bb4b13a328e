// The look-ahead and the gain of a portfolio, step by step.
ghost use Rattle.std.specs.Prelude.{◌≡◌, map};
ghost use Rattle.std.specs.Option.{option_map};
ghost use Rattle.interface.specs.Plants.{outcomes_of};
ghost use Rattle.lookahead.specs.Steps.{add_outcome, add_outcomes, ahead_of, look_ahead_steps};
ghost use Rattle.lookahead.specs.Steps.{gain_of, gain_steps};

use crate::table::ValueTable;
use interface::limits::WHOLE;
use interface::plant::{Bill, Outcome, Plant};
use interface::tariff::Tariff;

// The sum with one outcome more: weight × the value of the next state.
fn add_outcome<T: Tariff>(
    tariff: &T,
    table: &ValueTable<T::Amount>,
    sum: T::Amount,
    o: Outcome,
) -> Option<T::Amount>
    ensures { option_map T.Tariff.row result
        ≡ add_outcome (map T.Tariff.row table.now.amounts.now) (T.Tariff.row sum) o }
{
    let value = table.value(o.next)?;
    let part = tariff.multiple(o.weight, value)?;
    tariff.sum(sum, part)
}

// The sum with all outcomes of a pair, each asked once.
fn add_outcomes<P: Plant, T: Tariff>(
    plant: &P,
    tariff: &T,
    table: &ValueTable<T::Amount>,
    start: T::Amount,
    state: usize,
    portfolio: usize,
) -> Option<T::Amount>
    ensures { option_map T.Tariff.row result ≡ add_outcomes (map T.Tariff.row table.now.amounts.now)
        (T.Tariff.row start) (outcomes_of (P.model plant.now) state portfolio) }
{
    let mut sum = start;
    for k in 0..plant.outcome_count(state, portfolio) {
        let o = plant.outcome(state, portfolio, k)?;
        sum = add_outcome(tariff, table, sum, o)?;
    }
    Some(sum)
}

// The look-ahead of a pair whose bill is at hand: the bill is not asked again, each outcome once.
pub(crate) fn look_ahead_of<P: Plant, T: Tariff>(
    plant: &P,
    tariff: &T,
    table: &ValueTable<T::Amount>,
    bill: Bill,
    state: usize,
    portfolio: usize,
) -> Option<T::Amount>
    ensures { option_map T.Tariff.row result ≡ ahead_of (T.scale tariff.now)
        (map T.Tariff.row table.now.amounts.now) bill
        (outcomes_of (P.model plant.now) state portfolio) }
{
    let price = tariff.price(bill)?;
    let start = tariff.multiple(WHOLE, price)?;
    add_outcomes(plant, tariff, table, start, state, portfolio)
}

// The look-ahead.
pub(crate) fn look_ahead<P: Plant, T: Tariff>(
    plant: &P,
    tariff: &T,
    table: &ValueTable<T::Amount>,
    state: usize,
    portfolio: usize,
) -> Option<T::Amount>
    ensures { option_map T.Tariff.row result ≡ look_ahead_steps (P.model plant.now)
        (T.scale tariff.now) (map T.Tariff.row table.now.amounts.now) state portfolio }
{
    let bill = plant.bill(state, portfolio)?;
    look_ahead_of(plant, tariff, table, bill, state, portfolio)
}

// The gain of a pair whose bill is at hand: what the look-ahead exceeds the state's own value by.
pub(crate) fn gain_of<P: Plant, T: Tariff>(
    plant: &P,
    tariff: &T,
    table: &ValueTable<T::Amount>,
    bill: Bill,
    state: usize,
    portfolio: usize,
) -> Option<T::Amount>
    ensures { option_map T.Tariff.row result ≡ gain_of (T.scale tariff.now)
        (map T.Tariff.row table.now.amounts.now)
        bill (outcomes_of (P.model plant.now) state portfolio) state }
{
    let ahead = look_ahead_of(plant, tariff, table, bill, state, portfolio)?;
    let value = table.value(state)?;
    let own = tariff.multiple(WHOLE, value)?;
    tariff.difference(ahead, own)
}

// The gain.
pub(crate) fn gain<P: Plant, T: Tariff>(
    plant: &P,
    tariff: &T,
    table: &ValueTable<T::Amount>,
    state: usize,
    portfolio: usize,
) -> Option<T::Amount>
    ensures { option_map T.Tariff.row result ≡ gain_steps (P.model plant.now) (T.scale tariff.now)
        (map T.Tariff.row table.now.amounts.now) state portfolio }
{
    let bill = plant.bill(state, portfolio)?;
    gain_of(plant, tariff, table, bill, state, portfolio)
}
