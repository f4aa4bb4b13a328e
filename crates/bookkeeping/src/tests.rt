//! A book beside a small plant.
ghost use Rattle.std.specs.Prelude.{cond, ◌&&◌, ◌||◌, [], ◌∷◌, ◌==◌, nat_lt};
ghost use Rattle.std.proofs.Common.{arith, refl, lit≤, lit<};
ghost use Rattle.std.proofs.lemmas.Bool.Decides.{nat_tests};

use crate::refusal::Refusal;
use crate::run::run;
use crate::stage::Stage;
use crate::standing::{Answer, Call};
use interface::plant::{Bill, Outcome, Plant};
use std::test::Fail;

// A beacon lamp: state 0 is lit and state 1 dark, portfolio 0 leaves it and portfolio 1 replaces
// it. A dark lamp must be replaced.
#[derive(Clone, Copy)]
struct Lamp;

impl Plant for Lamp {
    ghost model = { λ l.
        record {
          states = 2;
          portfolios = 2;
          feasible = λ s x. nat_lt s 2 && (x == 1 || (x == 0 && s == 0));
          bill = λ s x. record { seconds = cond (s == 1) 60 0; cents = cond (x == 1) 500 0 };
          outcomes = λ s x.
              record { next = 0; weight = 7500 } ∷ record { next = 1; weight = 2500 } ∷ [];
        } };

    ghost lawful = { λ p.
        record {
          some_states = lit≤ tt;
          few_states = lit≤ tt;
          some_portfolios = lit≤ tt;
          few_portfolios = lit≤ tt;
          in_range = λ s x f. (Prim.grind (arith, nat_tests), Prim.grind (arith, nat_tests));
          way_out = λ s l. (1, Prim.grind (arith, nat_tests));
          billed = λ s x f. record {
            dark = Prim.grind (arith, nat_tests);
            paid = Prim.grind (arith, nat_tests);
          };
          spread = λ s x f. record {
            some = lit≤ tt;
            few = lit≤ tt;
            inside = (lit< tt, (lit< tt, tt));
            shared = refl;
          };
        } };

    fn states(&self) -> usize {
        2
    }

    fn portfolios(&self) -> usize {
        2
    }

    fn feasible(&self, state: usize, portfolio: usize) -> bool {
        matches!((state, portfolio), (0, 0 | 1) | (1, 1))
    }

    fn bill(&self, state: usize, portfolio: usize) -> Option<Bill> {
        let seconds = if state == 1 { 60 } else { 0 };
        let cents = if portfolio == 1 { 500 } else { 0 };
        self.feasible(state, portfolio)
            .then_some(Bill { seconds, cents })
    }

    fn outcome_count(&self, state: usize, portfolio: usize) -> usize {
        if self.feasible(state, portfolio) {
            2
        } else {
            0
        }
    }

    fn outcome(&self, state: usize, portfolio: usize, k: usize) -> Option<Outcome> {
        let lit = Outcome {
            next: 0,
            weight: 7500,
        };
        let dark = Outcome {
            next: 1,
            weight: 2500,
        };
        self.feasible(state, portfolio)
            .then_some([lit, dark])?
            .get(k)
            .copied()
    }
}

// A lamp is left, goes dark, may not be left so, and is replaced; the space behind stays as it was.
#[test]
fn runs_a_book(rt: HostRuntime) -> Result<(), Fail> {
    let calls = [
        Call::Issue(&[0, 1]),
        Call::CarryOut,
        Call::Report(1),
        Call::Issue(&[0, 0]),
        Call::CarryOut,
        Call::Issue(&[0, 1]),
        Call::CarryOut,
        Call::Report(5),
    ];
    let behind = Some(Answer::Next(Stage::Open));
    let mut answers = [behind; 9];
    let book = run(&Lamp, 0, &calls, &mut answers).map_err(|_| Fail::new(
        "the lamp has a state 0",
    ))?;
    let told = [
        Some(Answer::Next(Stage::Issued)),
        Some(Answer::Next(Stage::OnAir)),
        Some(Answer::Next(Stage::Open)),
        Some(Answer::Refused(Refusal::Infeasible(1))),
        None,
        Some(Answer::Next(Stage::Issued)),
        Some(Answer::Next(Stage::OnAir)),
        Some(Answer::Refused(Refusal::NoOutcome(5))),
        behind,
    ];
    assert!(rt; answers == told);
    assert_eq!(rt; book.state(), 1);
    assert_eq!(rt; book.windows(), 2);
    assert_eq!(rt; book.seconds(), 60);
    assert_eq!(rt; book.cents(), 500);
    assert_eq!(rt; book.portfolio(), Some(1));
    Ok(())
}
