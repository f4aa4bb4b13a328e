// What is written of calls, their answers and books.
use bookkeeping::refusal::Refusal;
use bookkeeping::stage::Stage;
use bookkeeping::standing::{Answer, Call, Standing};
use std::fmt;

// A stage in words.
#[derive(Clone, Copy)]
struct StageName(Stage);

impl fmt::Display for StageName {
    fn fmt<W: fmt::Write>(&self, f: &mut fmt::Formatter<W>) -> fmt::Result {
        match self.0 {
            Stage::Open => write!(f, "open"),
            Stage::Issued => write!(f, "issued"),
            Stage::OnAir => write!(f, "on air"),
        }
    }
}

// A call as it is asked.
#[derive(Clone, Copy)]
pub(crate) struct Asked<'a>(pub(crate) &'a Call<'a>);

impl<'a> fmt::Display for Asked<'a> {
    fn fmt<W: fmt::Write>(&self, f: &mut fmt::Formatter<W>) -> fmt::Result {
        match self.0 {
            Call::Issue(policy) => write!(f, "order by {policy:?}"),
            Call::CarryOut => write!(f, "carry out"),
            Call::Report(outcome) => write!(f, "report {outcome}"),
        }
    }
}

// The number and the place of a refusal.
#[derive(Clone, Copy)]
pub(crate) struct Why(pub(crate) Refusal);

impl fmt::Display for Why {
    fn fmt<W: fmt::Write>(&self, f: &mut fmt::Formatter<W>) -> fmt::Result {
        let number = self.0.number();
        let place = self.0.place();
        write!(f, "refused={number},{place}")
    }
}

// What a call of a run came to.
#[derive(Clone, Copy)]
pub(crate) enum Told {
    Answer(Answer),
    // It did not fit the stage of the book.
    Misfit,
    // There was no room for its answer.
    NotReached,
}

impl From<Option<Option<Answer>>> for Told {
    fn from(space: Option<Option<Answer>>) -> Told {
        match space {
            Some(Some(answer)) => Told::Answer(answer),
            Some(None) => Told::Misfit,
            None => Told::NotReached,
        }
    }
}

impl fmt::Display for Told {
    fn fmt<W: fmt::Write>(&self, f: &mut fmt::Formatter<W>) -> fmt::Result {
        match *self {
            Told::Answer(Answer::Next(stage)) => {
                let stage = StageName(stage);
                write!(f, "next={stage}")
            }
            Told::Answer(Answer::Refused(refusal)) => {
                let why = Why(refusal);
                write!(f, "{why}")
            }
            Told::Misfit => write!(f, "does not fit"),
            Told::NotReached => write!(f, "not reached"),
        }
    }
}

// What a book shows.
pub(crate) fn show(rt: &HostRuntime, book: &Standing) -> anyhow::Result<()> {
    let stage = StageName(book.stage());
    let state = book.state();
    let windows = book.windows();
    let seconds = book.seconds();
    let cents = book.cents();
    println!(rt; "stage={stage} state={state} windows={windows} seconds={seconds} cents={cents}")?;
    if let Some(portfolio) = book.portfolio() {
        println!(rt; "portfolio={portfolio}")?;
    }
    Ok(())
}
