ghost use Rattle.std.specs.Prelude.{◌≡◌, map, Some, IsSomeAnd};
ghost use Rattle.std.specs.Option.{option_map};
ghost use Rattle.interface.specs.Plants.{bill_of};
ghost use Rattle.interface.specs.Tariffs.{Answers};
ghost use Rattle.lookahead.specs.Best.{first_best, cheaper, where_feasible};
ghost use Rattle.lookahead.specs.Choices.{pick, FirstLeast};
ghost use Rattle.lookahead.specs.Gains.{Within, within_prop, look_ahead, gain};

use crate::best::Choice;
use crate::table::ValueTable;
use interface::plant::{Bill, Plant};
use interface::tariff::Tariff;

/// A plant and a tariff with a value table within reach. It is lent to whatever asks for gains and
/// look-aheads, which are there for the feasible portfolios and for no others. It is made as a
/// literal where the reach is known.
#[derive(Drop)]
pub struct ValuedPlant<'p, 't, 'v, P: Plant, T: Tariff> {
    pub plant: &'p P,
    pub tariff: &'t T,
    pub table: ValueTable<'v, T::Amount>,
    pub ghost within: { Within (P.model plant.now)
        (map T.Tariff.row table.amounts.now) } by { within_prop (P.model plant.now)
            (map T.Tariff.row table.amounts.now) },
}

impl<'p, 't, 'v, P: Plant, T: Tariff> ValuedPlant<'p, 't, 'v, P, T> {
    /// The look-ahead of a portfolio in a state.
    pub fn look_ahead(&self, state: usize, portfolio: usize) -> Option<T::Amount>
        ensures { Answers T.Tariff.row result
            ((P.model self.now.plant.now).feasible state portfolio)
            (look_ahead (P.model self.now.plant.now) (T.scale self.now.tariff.now)
            (map T.Tariff.row self.now.table.amounts.now) state portfolio) }
    {
        self.table
            .look_ahead(self.plant, self.tariff, state, portfolio)
    }

    /// The gain of a portfolio in a state.
    pub fn gain(&self, state: usize, portfolio: usize) -> Option<T::Amount>
        ensures { Answers T.Tariff.row result
            ((P.model self.now.plant.now).feasible state portfolio)
            (gain (P.model self.now.plant.now) (T.scale self.now.tariff.now)
            (map T.Tariff.row self.now.table.amounts.now) state portfolio) }
    {
        self.table.gain(self.plant, self.tariff, state, portfolio)
    }

    /// The gain of a feasible pair whose bill is at hand. Of the plant only the outcomes are asked,
    /// each once.
    pub fn gain_of(&self, bill: Bill, state: usize, portfolio: usize) -> Option<T::Amount>
        ensures { bill_of (P.model self.now.plant.now) state portfolio ≡ Some bill
            → IsSomeAnd result (λ a. T.Tariff.row a ≡ gain (P.model self.now.plant.now)
            (T.scale self.now.tariff.now) (map T.Tariff.row self.now.table.amounts.now)
            state portfolio) }
    {
        self.table
            .gain_of(self.plant, self.tariff, bill, state, portfolio)
    }

    /// The least gain of a state, with its portfolio: the lowest-numbered among equals.
    pub fn least_gain(&self, state: usize) -> Option<Choice<T::Amount>>
        ensures is { option_map (pick T.Tariff.row) result
            ≡ first_best (cheaper (T.scale self.now.tariff.now))
            (where_feasible (P.model self.now.plant.now)
            (gain (P.model self.now.plant.now) (T.scale self.now.tariff.now)
            (map T.Tariff.row self.now.table.amounts.now)) state)
            (P.model self.now.plant.now).portfolios }
        ensures least { FirstLeast T.Tariff.row (P.model self.now.plant.now)
            (T.scale self.now.tariff.now)
            (gain (P.model self.now.plant.now) (T.scale self.now.tariff.now)
            (map T.Tariff.row self.now.table.amounts.now)) state result }
    {
        self.table.least_gain(self.plant, self.tariff, state)
    }

    /// The least look-ahead of a state, with its portfolio: the lowest-numbered among equals.
    pub fn least_look_ahead(&self, state: usize) -> Option<Choice<T::Amount>>
        ensures is { option_map (pick T.Tariff.row) result
            ≡ first_best (cheaper (T.scale self.now.tariff.now))
            (where_feasible (P.model self.now.plant.now)
            (look_ahead (P.model self.now.plant.now) (T.scale self.now.tariff.now)
            (map T.Tariff.row self.now.table.amounts.now)) state)
            (P.model self.now.plant.now).portfolios }
        ensures least { FirstLeast T.Tariff.row (P.model self.now.plant.now)
            (T.scale self.now.tariff.now)
            (look_ahead (P.model self.now.plant.now) (T.scale self.now.tariff.now)
            (map T.Tariff.row self.now.table.amounts.now)) state result }
    {
        self.table.least_look_ahead(self.plant, self.tariff, state)
    }
}
