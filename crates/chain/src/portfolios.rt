// The portfolios of a chain.
ghost use Rattle.std.specs.Prelude.{◌≡◌, ◌≤◌, MatchBool};
ghost use Rattle.chain.specs.Chains.{Renewable, Unrenewable, survives as the_survives};
ghost use Rattle.chain.specs.Parts.{arcs_of};
ghost use Rattle.chain.specs.Portfolios.{all_portfolios, failure_renewed as the_failure};
ghost use Rattle.workorder.specs.Orders.{LeastTable, max_parts, portfolios as least_places};

use crate::numbers::ChainNumbers;
use crate::plant::Chain;
use crate::ranges::InRange;
use interface::limits::WHOLE;
use workorder::{PORTFOLIOS, holds};

impl ChainNumbers {
    // How many there are. The bound of the count is asked for the reason at `parts`.
    pub(crate) fn portfolio_count(&self) -> usize
        requires { self.now.count ≤ max_parts }
        ensures value { result ≡ all_portfolios self.now }
        ensures few { (1 ≤ result) × (result ≤ least_places) }
    {
        1 << self.count
    }

    // Whether the threshold is met, where the hazards add up to this number.
    pub(crate) fn survives(&self, hazards: u32) -> bool
        ensures { result ≡ the_survives self.now hazards }
    {
        hazards <= WHOLE && self.threshold <= WHOLE - hazards
    }
}

impl InRange {
    // Whether all parts may be renewed: they may in every state or in none.
    pub(crate) fn renewable(&self, least: &[Option<u64>; PORTFOLIOS]) -> bool
        requires { LeastTable (arcs_of self.now.numbers) least.now }
        ensures { MatchBool result (Renewable self.now.numbers) (Unrenewable self.now.numbers) }
    {
        let everything = self.numbers.portfolio_count() - 1;
        least[everything].is_some() && self.numbers.survives(self.hazards_when_new())
    }
}

impl Chain {
    // Whether the failed part, if there is one, is renewed. By number: the part that failed_part lends does not know its own.
    pub(crate) fn failure_renewed(&self, state: usize, portfolio: usize) -> bool
        ensures { result ≡ the_failure self.now.numbers state portfolio }
    {
        let failed = self.failed_in(state);
        failed == 0 || holds(portfolio, failed)
    }
}
