ghost use Rattle.std.specs.Prelude.{◌≡◌, length};
ghost use Rattle.std.specs.List.{slice_get};
ghost use Rattle.interface.specs.Plants.{Model, Lawful, bill_of, outcomes_of};
ghost use Rattle.interface.specs.Tariffs.{billable};

use crate::limits::{MOST_CENTS, MOST_SECONDS};

// What one window costs: dark seconds and cents.
#[derive(Clone, Copy, PartialEq, Eq, Debug)]
pub struct Bill {
    pub seconds: u32,
    pub cents: u32,
}

impl Bill {
    // Whether the bill is within the lawful ranges.
    pub fn lawful(self) -> bool
        ensures { result ≡ billable self }
    {
        self.seconds <= MOST_SECONDS && self.cents <= MOST_CENTS
    }
}

// One way that a window can end: the next state, and its weight in ten-thousandths.
#[derive(Clone, Copy, PartialEq, Eq, Debug)]
pub struct Outcome {
    pub next: usize,
    pub weight: u32,
}

// A plant: states and portfolios, both numbered from 0. All code above knows a plant by these questions alone.
// A state and a portfolio stay two numbers: each may be out of range by itself, and the pair is answered all the same.
pub trait Plant {
    // What the plant means; it answers for every number, also for one out of range.
    ghost model: { Self → Model };

    fn states(&self) -> usize
        ensures { result ≡ (model self.now).states };

    fn portfolios(&self) -> usize
        ensures { result ≡ (model self.now).portfolios };

    // Whether the portfolio may be carried out in the state.
    fn feasible(&self, state: usize, portfolio: usize) -> bool
        ensures { result ≡ (model self.now).feasible state portfolio };

    // The bill of the pair, absent exactly when it is not feasible.
    fn bill(&self, state: usize, portfolio: usize) -> Option<Bill>
        ensures { result ≡ bill_of (model self.now) state portfolio };

    // How many outcomes the pair has: 0 when it is not feasible.
    fn outcome_count(&self, state: usize, portfolio: usize) -> usize
        ensures { result ≡ length (outcomes_of (model self.now) state portfolio) };

    // Outcome k of the pair, counted from 0: absent from the number of outcomes on.
    fn outcome(&self, state: usize, portfolio: usize, k: usize) -> Option<Outcome>
        ensures { result ≡ slice_get (outcomes_of (model self.now) state portfolio) k };

    ghost lawful: { (p : Self) → Lawful (model p) };
}
