// The pair as a plant.
ghost use Rattle.std.specs.Prelude.{◌≡◌, IfSome, MatchResult, is_some};
ghost use Rattle.pair.specs.Laws.{PairLaws, SomePair};
ghost use Rattle.pair.specs.Pairs.{LawfulNumbers, Renewable, ThresholdFigure, HasGrades, moved_by, pair_feasible, seconds_at, cents_at, pair_model};
ghost use Rattle.pair.specs.Portfolios.{portfolio_number};
ghost use Rattle.pair.specs.Refusals.{Refused};
ghost use Rattle.pair.specs.States.{all_states, state_of, grades_in, grades_of, WithoutLoss};
ghost use Rattle.pair.specs.LawsLemmas.{pair_lawful};

use crate::numbers::PairNumbers;
use crate::portfolios::{PORTFOLIOS, Portfolio};
use crate::refusal::PairRefusal;
use crate::states::Grades;
use crate::units::Rows;
use interface::plant::{Bill, Outcome, Plant};

// Two units whose numbers are in range and which may both be renewed in every state. Each question is answered from
// the numbers in a few steps: what a row leaves beside failing is the chance of staying, so no row is summed again.
#[derive(Clone, Copy)]
pub struct Pair {
    numbers: PairNumbers,
    ghost lawful: { LawfulNumbers numbers },
    ghost renewable: { Renewable numbers },
}

// A portfolio in a state that allows it: the grades before it, and the rows by which the units move.
#[derive(Clone, Copy)]
struct Window<'a> {
    grades: Grades,
    portfolio: Portfolio,
    rows: Rows<'a>,
}

impl Pair {
    // The pair with these numbers: refused when one is out of range, and then when both units may never be renewed.
    pub fn new(numbers: PairNumbers) -> Result<Pair, PairRefusal>
        ensures made { MatchResult result (λ p. (p.numbers ≡ numbers) × (LawfulNumbers numbers × Renewable numbers)) (Refused numbers) }
        ensures figure { ThresholdFigure }
    {
        if !numbers.in_range() {
            return Err(PairRefusal::OutOfRange);
        }
        if !numbers.renewable() {
            return Err(PairRefusal::NoFullRenewal);
        }
        Ok(Pair { numbers })
    }

    // The numbers that the pair was made of, with the laws that follow from them; there is such a pair.
    pub fn numbers(&self) -> PairNumbers
        ensures value { result ≡ self.now.numbers }
        ensures lawful { LawfulNumbers result × Renewable result }
        ensures laws { PairLaws result }
        ensures met { SomePair }
    {
        self.numbers
    }

    // The number of the state with these grades, absent exactly when a unit has no such grade.
    #[tactic(auto, using(crate::specs::RoundTrips::without_loss))]
    pub fn state_number(&self, grades: Grades) -> Option<usize>
        ensures value { result ≡ state_of self.now.numbers grades }
        ensures kept { WithoutLoss self.now.numbers }
    {
        let PairNumbers { one, two, .. } = &self.numbers;
        if !one.has_grade(grades.one) || !two.has_grade(grades.two) {
            return None;
        }
        Some(grades.one - 1 + one.grades * (grades.two - 1))
    }

    // The grades of both units in a state, absent from the number of states on.
    #[tactic(auto, using(crate::specs::RoundTrips::without_loss))]
    pub fn grades_of(&self, state: usize) -> Option<Grades>
        ensures value { result ≡ grades_of self.now.numbers state }
        ensures had { IfSome result (HasGrades self.now.numbers) }
        ensures kept { WithoutLoss self.now.numbers }
    {
        if state >= self.states() {
            return None;
        }
        let width = self.numbers.one.grades;
        Some(Grades {
            one: state % width + 1,
            two: state / width + 1,
        })
    }

    // Absent exactly where the state does not allow the portfolio.
    fn window(&self, state: usize, portfolio: usize) -> Option<Window<'_>>
        ensures present { is_some result ≡ pair_feasible self.now.numbers state portfolio }
        ensures asked { IfSome result (λ w. (w.grades ≡ grades_in self.now.numbers state) × (portfolio_number w.portfolio ≡ portfolio)) }
        ensures units { IfSome result (λ w. (w.rows.one.unit.now ≡ self.now.numbers.one) × (w.rows.two.unit.now ≡ self.now.numbers.two)) }
        ensures rows { IfSome result (λ w. (w.rows.one.grade ≡ (moved_by self.now.numbers state portfolio).one) × (w.rows.two.grade ≡ (moved_by self.now.numbers state portfolio).two)) }
    {
        let grades = self.grades_of(state)?;
        let portfolio = Portfolio::try_from(portfolio).ok()?;
        let one = self
            .numbers
            .one
            .row_from(portfolio.renews_one(), grades.one)?;
        let two = self
            .numbers
            .two
            .row_from(portfolio.renews_two(), grades.two)?;
        let rows = Rows { one, two };
        if rows.survival() < self.numbers.threshold {
            return None;
        }
        Some(Window {
            grades,
            portfolio,
            rows,
        })
    }

    fn seconds(&self, grades: Grades) -> u32
        ensures { result ≡ seconds_at self.now.numbers grades }
    {
        self.numbers.one.dark_seconds(grades.one) + self.numbers.two.dark_seconds(grades.two)
    }

    fn cents(&self, grades: Grades, portfolio: Portfolio) -> u32
        ensures { result ≡ cents_at self.now.numbers grades (portfolio_number portfolio) }
    {
        let one = self
            .numbers
            .one
            .renewal_cents(portfolio.renews_one(), grades.one);
        let two = self
            .numbers
            .two
            .renewal_cents(portfolio.renews_two(), grades.two);
        let setup = if portfolio == Portfolio::Nothing {
            0
        } else {
            self.numbers.setup
        };
        self.numbers.inspect + setup + one + two
    }
}

impl Plant for Pair {
    ghost model = { λ p. pair_model p.numbers };

    ghost lawful = { λ p. pair_lawful p.numbers p.lawful p.renewable };

    fn states(&self) -> usize {
        self.numbers.one.grades * self.numbers.two.grades
    }

    fn portfolios(&self) -> usize {
        PORTFOLIOS
    }

    fn feasible(&self, state: usize, portfolio: usize) -> bool {
        self.window(state, portfolio).is_some()
    }

    fn bill(&self, state: usize, portfolio: usize) -> Option<Bill> {
        let window = self.window(state, portfolio)?;
        Some(Bill {
            seconds: self.seconds(window.grades),
            cents: self.cents(window.grades, window.portfolio),
        })
    }

    fn outcome_count(&self, state: usize, portfolio: usize) -> usize {
        if self.feasible(state, portfolio) {
            self.states()
        } else {
            0
        }
    }

    #[tactic(auto, using(crate::specs::Outcomes::no_outcome))]
    fn outcome(&self, state: usize, portfolio: usize, k: usize) -> Option<Outcome> {
        let rows = self.window(state, portfolio)?.rows;
        let next = self.grades_of(k)?;
        Some(Outcome {
            next: k,
            weight: rows.weight(next),
        })
    }
}
