// The plan of the example, followed and run.
use crate::example::{SWEEPS, chain, tariff};
use crate::telling::{Asked, Told, Why, show};
use anyhow::bail;
use bookkeeping::book::Open;
use bookkeeping::run::run;
use bookkeeping::stage::Stage;
use bookkeeping::standing::{Answer, Call, Standing};
use chain::plant::Chain;
use following::follow::follow;
use interface::claims::Claims;
use interface::plant::Plant;
use interface::tariff::Tariff;
use planner::plan::plan;
use tariffs::priced::{Cost, Priced};

// A certificate of the example.
#[derive(Clone, Copy)]
struct Plan<'a> {
    values: &'a [Cost],
    policy: &'a [u16],
    claims: Claims<Cost>,
}

// A new book in a state follows a plan through these outcomes.
fn tell_followed(
    rt: &HostRuntime,
    chain: &Chain,
    tariff: &Priced,
    plan: Plan,
    state: usize,
    outcomes: &[usize],
) -> anyhow::Result<()> {
    let Ok(book) = Open::make(chain, state) else {
        bail!("the chain has no state {state}");
    };
    match follow(
        chain,
        tariff,
        plan.values,
        plan.policy,
        plan.claims,
        book,
        outcomes,
    ) {
        Ok(followed) => {
            let finding = followed.finding;
            let low = finding.low.thousandths;
            let high = finding.high.thousandths;
            let top = finding.top.thousandths;
            let bottom = finding.bottom.thousandths;
            let windows = followed.windows;
            println!(rt; "low={low} high={high} top={top} bottom={bottom}")?;
            println!(rt; "windows={windows}")?;
            if let Some(refusal) = followed.refused {
                let why = Why(refusal);
                println!(rt; "{why}")?;
            }
            show(rt, &followed.book)
        }
        Err(unfollowed) => {
            let number = unfollowed.why.number();
            let place = unfollowed.why.place();
            println!(rt; "refused={number},{place}")?;
            show(rt, &Standing::Open(unfollowed.book))
        }
    }
}

// A book is run from a state through these calls, with room for so many answers.
fn tell_run(
    rt: &HostRuntime,
    chain: &Chain,
    state: usize,
    calls: &[Call],
    room: usize,
) -> anyhow::Result<()> {
    let before = Some(Answer::Next(Stage::Open));
    let mut answers = vec![in rt.alloc(); before; room]?;
    match run(chain, state, calls, &mut answers) {
        Ok(book) => {
            for (i, call) in calls.iter().enumerate() {
                let call = Asked(call);
                let told = Told::from(answers.get(i).copied());
                println!(rt; "{call}: {told}")?;
            }
            show(rt, &book)
        }
        Err(refusal) => {
            let why = Why(refusal);
            let kept = answers.iter().all(|answer| *answer == before);
            println!(rt; "{why}")?;
            println!(rt; "answers kept: {kept}")?;
            Ok(())
        }
    }
}

pub(crate) fn tour(rt: &HostRuntime) -> anyhow::Result<()> {
    let chain = chain()?;
    let tariff = tariff()?;
    let states = chain.states();
    let mut values = vec![in rt.alloc(); tariff.zero(); states]?;
    let mut working = vec![in rt.alloc(); tariff.zero(); states]?;
    let mut policy = vec![in rt.alloc(); 0; states]?;
    let planned = plan(
        &chain,
        &tariff,
        SWEEPS,
        &mut values,
        &mut working,
        &mut policy,
    );
    let Ok(claims) = planned else {
        bail!("the sweeps make no plan");
    };
    let outcomes = [0, 1, 0, 9, 0];
    let own = Plan {
        values: &values,
        policy: &policy,
        claims,
    };
    println!(rt; "the plan, followed from state 0")?;
    tell_followed(rt, &chain, &tariff, own, 0, &outcomes)?;
    let bold = Plan {
        claims: Claims {
            low: claims.low,
            high: Cost {
                thousandths: claims.high.thousandths - 1,
            },
        },
        ..own
    };
    println!(rt; "high is one less, from state 2")?;
    tell_followed(rt, &chain, &tariff, bold, 2, &outcomes)?;
    let none = Call::Issue(&[]);
    let unknown = Call::Issue(&[5, 5, 5, 5]);
    let planned = Call::Issue(&policy);
    let calls = [
        Call::CarryOut,
        none,
        unknown,
        planned,
        planned,
        Call::Report(0),
        Call::CarryOut,
        Call::Report(2),
        Call::CarryOut,
        Call::Report(1),
        unknown,
        planned,
        Call::CarryOut,
        Call::Report(0),
        planned,
        Call::CarryOut,
        Call::Report(0),
    ];
    println!(rt; "calls of every kind, from state 0")?;
    tell_run(rt, &chain, 0, &calls, 15)?;
    println!(rt; "the same from state 4")?;
    tell_run(rt, &chain, 4, &calls, 15)
}
