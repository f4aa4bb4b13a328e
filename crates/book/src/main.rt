// The book: reads a plant, a tariff and a number of sweeps, makes the plan, and follows it from its start on as the lines behind
// them ask. Each line is answered at once. What is meant for people goes to standard error.
#![tactic(auto)]

use desk::opening::follow;
use desk::requesting::hear_request;
use desk::streams::Streams;
use reply::answer::Unanswered;
use reply::words::InWords;
use std::io::BufReader;

fn run(rt: &HostRuntime) -> anyhow::Result<()> {
    let reader = BufReader::new(rt.alloc(), rt.stdin())?;
    let mut terminal = Streams::new(reader, rt.stdout());
    let text = hear_request(rt.alloc(), &mut terminal)?;
    let length = text.len();
    let _ = eprintln!(rt; "a request of {length} bytes: reading and planning");
    match follow(rt.alloc(), text.as_slice(), terminal) {
        Err(Unanswered::Refused(refusal)) => {
            let words = InWords(refusal);
            let _ = eprintln!(rt; "{words}");
            println!(rt; "{refusal}")?;
        }
        followed => {
            followed?;
        }
    }
    Ok(())
}

fn main(rt: HostRuntime) -> anyhow::Result<()> {
    run(&rt)
}
