// The console: reads a plant, a tariff and a number of sweeps from standard input, and writes the plan, or one line
// with the number and the place of a refusal. What is meant for people goes to standard error.
#![tactic(auto)]

use reply::answer::Unanswered;
use reply::replying::reply_to;
use reply::words::InWords;
use std::io::{Read, Write};

fn run(rt: &HostRuntime) -> anyhow::Result<()> {
    let mut text = Vec::new(rt.alloc());
    rt.stdin().read_to_end(&mut text)?;
    let length = text.len();
    let _ = eprintln!(rt; "a request of {length} bytes: reading and planning");
    match reply_to(rt.alloc(), text.as_slice()) {
        Err(Unanswered::Refused(refusal)) => {
            let words = InWords(refusal);
            let _ = eprintln!(rt; "{words}");
            println!(rt; "{refusal}")?;
        }
        answered => rt.stdout().write_all(answered?.as_slice())?,
    }
    Ok(())
}

fn main(rt: HostRuntime) -> anyhow::Result<()> {
    run(&rt)
}
