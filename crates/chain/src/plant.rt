// The chain as a plant.
ghost use Rattle.std.specs.Prelude.{◌≡◌, ◌<◌, ◌≤◌, MatchResult};
ghost use Rattle.chain.specs.Chains.{RenewableBy, chain_model, renewal_cents};
ghost use Rattle.chain.specs.Laws.{ChainLaws, Figures, LeastWithin, SomeChain};
ghost use Rattle.chain.specs.Made.{Made};
ghost use Rattle.chain.specs.Parts.{LawfulNumbers, arcs_of};
ghost use Rattle.chain.specs.Refusals.{Refused};
ghost use Rattle.chain.specs.States.{all_states, failed_in};
ghost use Rattle.chain.specs.Windows.{WhenFeasible};
ghost use Rattle.interface.specs.Limits.{most_states};
ghost use Rattle.workorder.specs.Orders.{LeastTable, portfolios as least_places};
ghost use Rattle.chain.specs.LawsLemmas.{chain_lawful, renewable_from};
ghost use Rattle.workorder.proofs.WorkOrders.{table_held};
ghost use Rattle.std.proofs.Common.{arith};

use crate::numbers::ChainNumbers;
use crate::ranges::InRange;
use crate::refusal::ChainRefusal;
use crate::windows::Window;
use interface::limits::{MOST_STATES, WHOLE};
use interface::plant::{Bill, Outcome, Plant};
use workorder::{PORTFOLIOS, least_work_orders};

#[derive(Clone, Copy)]
pub struct Chain {
    pub(crate) numbers: ChainNumbers,
    pub(crate) states: usize,
    // The least cents of a work order for each portfolio.
    least: [Option<u64>; PORTFOLIOS],
    ghost ranges: { LawfulNumbers numbers },
    ghost counted: { states ≡ all_states numbers },
    ghost few: { states ≤ most_states },
    ghost right: { ∥ LeastTable (arcs_of numbers) least ∥₁ },
    ghost renewable: { RenewableBy numbers least },
}

impl Chain {
    // The chain with these numbers: refused when one is out of range, then when there are too many states,
    // and then when all parts together may never be renewed.
    pub fn new(numbers: ChainNumbers) -> Result<Chain, ChainRefusal>
        ensures { MatchResult result (λ c. (c.numbers ≡ numbers) × Made numbers c.least) (Refused numbers) }
    {
        let ranged = InRange::new(numbers).ok_or(ChainRefusal::OutOfRange)?;
        let states = ranged.state_count();
        if states > MOST_STATES {
            return Err(ChainRefusal::TooManyStates);
        }
        let least = least_work_orders(ranged.arcs());
        if !ranged.renewable(&least) {
            return Err(ChainRefusal::NoFullRenewal);
        }
        Ok(Chain {
            numbers: ranged.numbers,
            states,
            least,
        })
    }

    // The numbers that the chain was made of, and what they come to.
    pub fn numbers(&self) -> ChainNumbers
        ensures value { result ≡ self.now.numbers }
        ensures made { Made result self.now.least }
        ensures laws { ChainLaws result self.now.least }
        ensures figures { Figures }
        ensures met { SomeChain }
    {
        self.numbers
    }

    // The least cents of a work order for the portfolio, absent exactly when the chain has no such portfolio or no order for it.
    pub fn least_work_order(&self, portfolio: usize) -> Option<u64>
        ensures { LeastWithin self.now.numbers portfolio result }
    {
        if portfolio >= self.numbers.portfolio_count() {
            return None;
        }
        self.least[portfolio]
    }

    // The window of a pair, asked about one part; there is none exactly when the pair is not feasible.
    fn window(&self, state: usize, portfolio: usize, part: usize) -> Option<Window>
        ensures { WhenFeasible self.now.numbers self.now.least state portfolio part result }
    {
        if state >= self.states || portfolio >= self.numbers.portfolio_count() {
            return None;
        }
        if !self.failure_renewed(state, portfolio) || self.least[portfolio].is_none() {
            return None;
        }
        let window = self.coming_window(state, portfolio, part)?;
        if !self.numbers.survives(window.hazards) {
            return None;
        }
        Some(window)
    }

    // The cents of a portfolio in a state.
    fn cents(&self, state: usize, portfolio: usize) -> u32
        requires { portfolio < least_places }
        ensures { result ≡ renewal_cents self.now.numbers self.now.least portfolio (failed_in self.now.numbers state) }
    {
        if portfolio == 0 {
            return 0;
        }
        let order = self.least[portfolio].unwrap_or(0) as u32;
        self.numbers.setup + order + self.failure_charge(state)
    }
}

impl Plant for Chain {
    ghost model = { λ c. chain_model c.numbers c.least };

    ghost lawful = { λ p.
        let n = p.numbers in
        let right = table_held (arcs_of n) p.least p.right in
        chain_lawful n p.least p.ranges right (omega (arith, p.counted, p.few)) (renewable_from n p.least p.ranges right p.renewable) };

    fn states(&self) -> usize {
        self.states
    }

    fn portfolios(&self) -> usize {
        self.numbers.portfolio_count()
    }

    fn feasible(&self, state: usize, portfolio: usize) -> bool {
        self.window(state, portfolio, 0).is_some()
    }

    fn bill(&self, state: usize, portfolio: usize) -> Option<Bill> {
        if !self.feasible(state, portfolio) {
            return None;
        }
        Some(Bill {
            seconds: self.dark_seconds(state),
            cents: self.cents(state, portfolio),
        })
    }

    fn outcome_count(&self, state: usize, portfolio: usize) -> usize {
        if !self.feasible(state, portfolio) {
            return 0;
        }
        self.numbers.count + 1
    }

    fn outcome(&self, state: usize, portfolio: usize, k: usize) -> Option<Outcome> {
        if k > self.numbers.count {
            return None;
        }
        let window = self.window(state, portfolio, k)?;
        let weight = match k {
            0 => WHOLE - window.hazards,
            _ => window.hazard,
        };
        let next = window.next + k;
        Some(Outcome { next, weight })
    }
}
