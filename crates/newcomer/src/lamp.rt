// A beacon lamp as a plant.
ghost use Rattle.std.specs.Prelude.{◌≡◌, ◌<◌, ◌≤◌, MatchOption};
ghost use Rattle.interface.specs.Limits.{whole};
ghost use Rattle.newcomer.specs.Lamp.{lamp_model};
ghost use Rattle.std.proofs.Common.{arith, lit≤, lit<};
ghost use Rattle.std.proofs.lemmas.Bool.Decides.{nat_tests};
ghost use Rattle.newcomer.specs.LampPlantLemmas.{way_out};

use interface::limits::WHOLE;
use interface::plant::{Bill, Outcome, Plant};

const STATES: usize = 2;

const PORTFOLIOS: usize = 2;

// Numbers, by which a plant is asked. As enums each question would convert two of them first, and the next state back; here
// one pattern of `feasible` refuses every number out of range.
const LIT: usize = 0;

const DARK: usize = 1;

const LEAVE: usize = 0;

const REPLACE: usize = 1;

#[derive(Clone, Copy)]
pub struct Lamp {
    failing: u32,
    ghost shared: { failing ≤ whole },
}

impl Lamp {
    // A lamp that fails with this weight, absent above the whole.
    pub fn new(failing: u32) -> Option<Lamp>
        ensures { MatchOption result (whole < failing) (λ l. (l.failing ≡ failing) × (failing ≤ whole)) }
    {
        // A test first: in a closure under `then` the lamp's invariant would need a clause of its own.
        if failing > WHOLE {
            return None;
        }
        Some(Lamp { failing })
    }
}

impl Plant for Lamp {
    ghost model = { λ l. lamp_model l.failing };

    ghost lawful = { λ p.
        record {
          some_states = lit≤ tt;
          few_states = lit≤ tt;
          some_portfolios = lit≤ tt;
          few_portfolios = lit≤ tt;
          in_range = λ s x f. (Prim.grind (arith, nat_tests), Prim.grind (arith, nat_tests));
          way_out = λ s l. (1, way_out s l);
          billed = λ s x f. record { dark = Prim.grind (arith, nat_tests); paid = Prim.grind (arith, nat_tests) };
          spread = λ s x f. record { some = lit≤ tt; few = lit≤ tt; inside = (lit< tt, (lit< tt, tt)); shared = omega (arith, p.shared) };
        } };

    fn states(&self) -> usize {
        STATES
    }

    fn portfolios(&self) -> usize {
        PORTFOLIOS
    }

    fn feasible(&self, state: usize, portfolio: usize) -> bool {
        matches!((state, portfolio), (LIT, LEAVE | REPLACE) | (DARK, REPLACE))
    }

    fn bill(&self, state: usize, portfolio: usize) -> Option<Bill> {
        let seconds = if state == DARK { 60 } else { 0 };
        let cents = if portfolio == REPLACE { 500 } else { 0 };
        self.feasible(state, portfolio)
            .then_some(Bill { seconds, cents })
    }

    fn outcome_count(&self, state: usize, portfolio: usize) -> usize {
        if self.feasible(state, portfolio) {
            2
        } else {
            0
        }
    }

    fn outcome(&self, state: usize, portfolio: usize, k: usize) -> Option<Outcome> {
        let lit = Outcome {
            next: LIT,
            weight: WHOLE - self.failing,
        };
        let dark = Outcome {
            next: DARK,
            weight: self.failing,
        };
        self.feasible(state, portfolio)
            .then_some([lit, dark])?
            .get(k)
            .copied()
    }
}
