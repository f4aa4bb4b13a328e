// A tour of the calls of a book beside a chain of one part: a plan is followed, one whose high is
// too low is not, and books are run through calls of every kind. Writes what each came to.
#![tactic(auto)]

mod example;
mod telling;
mod touring;

fn main(rt: HostRuntime) -> anyhow::Result<()> {
    touring::tour(&rt)
}
