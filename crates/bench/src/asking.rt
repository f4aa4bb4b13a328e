// Every question of a plant, for all numbers in range and the first out of range. A plant is asked by numbers. A fold over
// them would put each question into a closure, with a clause of its own as in planning's mix_values, and is no plainer.
ghost use Rattle.std.specs.Prelude.{◌≡◌};
ghost use Rattle.bench.specs.Asking.{outcomes_asked, pair_asked, state_asked, plant_asked, asked_again};

use crate::mixing::{mix, mix_bill, mix_flag, mix_outcome};
use interface::plant::Plant;

// The outcomes of a pair, up to one past the last.
fn ask_outcomes<P: Plant>(plant: &P, state: usize, portfolio: usize, before: u64) -> u64
    ensures { result ≡ outcomes_asked (P.model plant.now) state portfolio before }
{
    let count = plant.outcome_count(state, portfolio);
    let mut digest = mix(before, count as u64);
    for k in 0..=count {
        digest = mix_outcome(digest, plant.outcome(state, portfolio, k));
    }
    digest
}

// All questions of one pair of state and portfolio.
fn ask_pair<P: Plant>(plant: &P, state: usize, portfolio: usize, before: u64) -> u64
    ensures { result ≡ pair_asked (P.model plant.now) state portfolio before }
{
    let flagged = mix_flag(before, plant.feasible(state, portfolio));
    let billed = mix_bill(flagged, plant.bill(state, portfolio));
    ask_outcomes(plant, state, portfolio, billed)
}

// All pairs of one state, up to one portfolio past the last.
fn ask_state<P: Plant>(plant: &P, state: usize, before: u64) -> u64
    ensures { result ≡ state_asked (P.model plant.now) state before }
{
    let mut digest = before;
    for portfolio in 0..=plant.portfolios() {
        digest = ask_pair(plant, state, portfolio, digest);
    }
    digest
}

// All states, up to one past the last.
fn ask_plant<P: Plant>(plant: &P, before: u64) -> u64
    ensures { result ≡ plant_asked (P.model plant.now) before }
{
    let states = plant.states();
    let mut digest = mix(mix(before, states as u64), plant.portfolios() as u64);
    for state in 0..=states {
        digest = ask_state(plant, state, digest);
    }
    digest
}

// The whole, asked so many times.
pub(crate) fn ask_rounds<P: Plant>(plant: &P, rounds: u32) -> u64
    ensures { result ≡ asked_again (P.model plant.now) rounds }
{
    let mut digest = 0;
    for _round in 0..rounds {
        digest = ask_plant(plant, digest);
    }
    digest
}
