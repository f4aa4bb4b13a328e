// Asks a plant every question, in range, just beyond and far beyond, and writes the answers: for comparison with another program.
#![tactic(auto)]

use chain::plant::Chain;
use chaintext::read::read_chain;
use interface::plant::{Bill, Outcome, Plant};
use lines::reading::Lines;
use pair::plant::Pair;
use pairtext::text::read_pair;
use reading::rules::ReadRefusal;
use reply::answer::Refusal;
use request::kind::{Kind, kind_of};
use std::io::Read;

// A plant of the kind that its text names.
#[derive(Drop)]
enum AnyPlant {
    Chain(Chain),
    Pair(Pair),
}

// The greatest number that can be asked for.
const HUGE: usize = usize::MAX;

// One outcome, or that there is none of this number.
fn tell_outcome<P: Plant>(
    rt: &HostRuntime,
    plant: &P,
    state: usize,
    portfolio: usize,
    k: usize,
) -> anyhow::Result<()> {
    match plant.outcome(state, portfolio, k) {
        Some(Outcome { next, weight }) => println!(rt; " {k} {next} {weight}")?,
        None => println!(rt; " {k} absent")?,
    }
    Ok(())
}

// The answers for one pair of state and portfolio: feasible, the bill, the number of outcomes, each outcome, and two
// that there are not.
fn tell_pair<P: Plant>(
    rt: &HostRuntime,
    plant: &P,
    state: usize,
    portfolio: usize,
) -> anyhow::Result<()> {
    let feasible = plant.feasible(state, portfolio);
    let count = plant.outcome_count(state, portfolio);
    match plant.bill(state, portfolio) {
        Some(Bill { seconds, cents }) => {
            println!(rt; "{state} {portfolio} {feasible} {seconds} {cents} {count}")?;
        }
        None => println!(rt; "{state} {portfolio} {feasible} absent {count}")?,
    }
    // By number, here and below: a plant is asked so, also past its last.
    for k in 0..=count {
        tell_outcome(rt, plant, state, portfolio, k)?;
    }
    tell_outcome(rt, plant, state, portfolio, HUGE)
}

// All portfolios of a state, and two that there are not.
fn tell_state<P: Plant>(rt: &HostRuntime, plant: &P, state: usize) -> anyhow::Result<()> {
    for portfolio in 0..=plant.portfolios() {
        tell_pair(rt, plant, state, portfolio)?;
    }
    tell_pair(rt, plant, state, HUGE)
}

// All states, and two that there are not.
fn tell_plant<P: Plant>(rt: &HostRuntime, plant: &P) -> anyhow::Result<()> {
    let states = plant.states();
    let portfolios = plant.portfolios();
    println!(rt; "{states} states, {portfolios} portfolios")?;
    for state in 0..=states {
        tell_state(rt, plant, state)?;
    }
    tell_state(rt, plant, HUGE)
}

fn read_plant(text: &[u8]) -> Result<AnyPlant, ReadRefusal> {
    let mut lines = Lines::new(text);
    match kind_of(text)? {
        Kind::Chain => Ok(AnyPlant::Chain(read_chain(&mut lines)?)),
        Kind::Pair => Ok(AnyPlant::Pair(read_pair(&mut lines)?)),
    }
}

fn run(rt: &HostRuntime) -> anyhow::Result<()> {
    let mut text = Vec::new(rt.alloc());
    rt.stdin().read_to_end(&mut text)?;
    match read_plant(text.as_slice()) {
        Ok(AnyPlant::Chain(chain)) => tell_plant(rt, &chain)?,
        Ok(AnyPlant::Pair(pair)) => tell_plant(rt, &pair)?,
        Err(refusal) => {
            let refusal = Refusal::Broken(refusal);
            println!(rt; "{refusal}")?;
        }
    }
    Ok(())
}

fn main(rt: HostRuntime) -> anyhow::Result<()> {
    run(&rt)
}
