ghost use Rattle.std.specs.Prelude.{◌≡◌, map, Some, IsSomeAnd};
ghost use Rattle.std.specs.List.{slice_get};
ghost use Rattle.std.specs.Option.{option_map};
ghost use Rattle.interface.specs.Plants.{bill_of, outcomes_of};
ghost use Rattle.interface.specs.Tariffs.{Answers};
ghost use Rattle.lookahead.specs.Best.{first_best, FirstBest, cheaper, where_feasible};
ghost use Rattle.lookahead.specs.Choices.{pick};
ghost use Rattle.lookahead.specs.Gains.{Within, look_ahead, gain};
ghost use Rattle.lookahead.specs.Steps.{look_ahead_steps, gain_steps, gain_of};

use crate::ahead;
use crate::best::{Aim, Choice};
use interface::plant::{Bill, Plant};
use interface::tariff::Tariff;

/// A value table: amounts of any kind in the caller's memory, one to each state.
#[derive(Clone, Copy)]
pub struct ValueTable<'a, A> {
    pub amounts: &'a [A],
}

impl<'a, A: Copy> ValueTable<'a, A> {
    /// The table of these amounts.
    pub fn new(amounts: &'a [A]) -> ValueTable<'a, A>
        ensures { result.amounts.now ≡ amounts.now }
    {
        ValueTable { amounts }
    }

    /// The value of a state, absent past the table's end.
    pub fn value(&self, state: usize) -> Option<A>
        ensures { result ≡ slice_get self.now.amounts.now state }
    {
        self.amounts.get(state).copied()
    }

    /// The look-ahead of a portfolio in a state. Under a table within reach it is there for the
    /// feasible portfolios and for no others; under any table it is what the steps come to.
    pub fn look_ahead<P: Plant, T: Tariff<Amount = A>>(
        &self,
        plant: &P,
        tariff: &T,
        state: usize,
        portfolio: usize,
    ) -> Option<A>
        ensures steps { option_map T.Tariff.row result ≡ look_ahead_steps (P.model plant.now)
            (T.scale tariff.now) (map T.Tariff.row self.now.amounts.now) state portfolio }
        ensures within { Within (P.model plant.now) (map T.Tariff.row self.now.amounts.now)
            → Answers T.Tariff.row result ((P.model plant.now).feasible state portfolio)
            (look_ahead (P.model plant.now) (T.scale tariff.now)
            (map T.Tariff.row self.now.amounts.now) state portfolio) }
    {
        ahead::look_ahead(plant, tariff, self, state, portfolio)
    }

    /// The gain of a portfolio in a state, absent as the look-ahead is under a table within reach.
    pub fn gain<P: Plant, T: Tariff<Amount = A>>(
        &self,
        plant: &P,
        tariff: &T,
        state: usize,
        portfolio: usize,
    ) -> Option<A>
        ensures steps { option_map T.Tariff.row result ≡ gain_steps (P.model plant.now)
            (T.scale tariff.now) (map T.Tariff.row self.now.amounts.now) state portfolio }
        ensures within { Within (P.model plant.now) (map T.Tariff.row self.now.amounts.now)
            → Answers T.Tariff.row result ((P.model plant.now).feasible state portfolio)
            (gain (P.model plant.now) (T.scale tariff.now)
            (map T.Tariff.row self.now.amounts.now) state portfolio) }
    {
        ahead::gain(plant, tariff, self, state, portfolio)
    }

    /// The gain of a pair whose bill is at hand. Of the plant only the outcomes are asked, each
    /// once. Under a table within reach it is there for the bill of a feasible pair.
    pub fn gain_of<P: Plant, T: Tariff<Amount = A>>(
        &self,
        plant: &P,
        tariff: &T,
        bill: Bill,
        state: usize,
        portfolio: usize,
    ) -> Option<A>
        ensures steps { option_map T.Tariff.row result ≡ gain_of (T.scale tariff.now)
            (map T.Tariff.row self.now.amounts.now) bill
            (outcomes_of (P.model plant.now) state portfolio) state }
        ensures within { Within (P.model plant.now) (map T.Tariff.row self.now.amounts.now)
            → bill_of (P.model plant.now) state portfolio ≡ Some bill
            → IsSomeAnd result (λ a. T.Tariff.row a ≡ gain (P.model plant.now) (T.scale tariff.now)
            (map T.Tariff.row self.now.amounts.now) state portfolio) }
    {
        ahead::gain_of(plant, tariff, self, bill, state, portfolio)
    }

    /// The least look-ahead of a state, with its portfolio: the lowest-numbered among equals.
    pub fn least_look_ahead<P: Plant, T: Tariff<Amount = A>>(
        &self,
        plant: &P,
        tariff: &T,
        state: usize,
    ) -> Option<Choice<A>>
        ensures steps { option_map (pick T.Tariff.row) result
            ≡ first_best (cheaper (T.scale tariff.now)) (look_ahead_steps (P.model plant.now)
            (T.scale tariff.now) (map T.Tariff.row self.now.amounts.now) state)
            (P.model plant.now).portfolios }
        ensures within { Within (P.model plant.now) (map T.Tariff.row self.now.amounts.now)
            → option_map (pick T.Tariff.row) result
            ≡ first_best (cheaper (T.scale tariff.now)) (where_feasible (P.model plant.now)
            (look_ahead (P.model plant.now) (T.scale tariff.now)
            (map T.Tariff.row self.now.amounts.now)) state) (P.model plant.now).portfolios }
        ensures least { Within (P.model plant.now) (map T.Tariff.row self.now.amounts.now)
            → FirstBest (cheaper (T.scale tariff.now)) (where_feasible (P.model plant.now)
            (look_ahead (P.model plant.now) (T.scale tariff.now)
            (map T.Tariff.row self.now.amounts.now)) state) (P.model plant.now).portfolios
            (option_map (pick T.Tariff.row) result) }
    {
        Aim::Least.first_best(tariff, plant.portfolios(), |x| {
            self.look_ahead(plant, tariff, state, x)
        })
    }

    /// The least gain of a state, with its portfolio: the lowest-numbered among equals.
    pub fn least_gain<P: Plant, T: Tariff<Amount = A>>(
        &self,
        plant: &P,
        tariff: &T,
        state: usize,
    ) -> Option<Choice<A>>
        ensures steps { option_map (pick T.Tariff.row) result
            ≡ first_best (cheaper (T.scale tariff.now)) (gain_steps (P.model plant.now)
            (T.scale tariff.now) (map T.Tariff.row self.now.amounts.now) state)
            (P.model plant.now).portfolios }
        ensures within { Within (P.model plant.now) (map T.Tariff.row self.now.amounts.now)
            → option_map (pick T.Tariff.row) result
            ≡ first_best (cheaper (T.scale tariff.now)) (where_feasible (P.model plant.now)
            (gain (P.model plant.now) (T.scale tariff.now)
            (map T.Tariff.row self.now.amounts.now)) state) (P.model plant.now).portfolios }
        ensures least { Within (P.model plant.now) (map T.Tariff.row self.now.amounts.now)
            → FirstBest (cheaper (T.scale tariff.now)) (where_feasible (P.model plant.now)
            (gain (P.model plant.now) (T.scale tariff.now)
            (map T.Tariff.row self.now.amounts.now)) state) (P.model plant.now).portfolios
            (option_map (pick T.Tariff.row) result) }
    {
        Aim::Least.first_best(tariff, plant.portfolios(), |x| {
            self.gain(plant, tariff, state, x)
        })
    }
}
