use crate::answer::Refusal;
use reading::rules::Rule;
use std::fmt;

/// A refusal for people: its line, and what is wrong there.
#[derive(Clone, Copy)]
pub struct InWords(pub Refusal);

impl fmt::Display for InWords {
    fn fmt<W: fmt::Write>(&self, f: &mut fmt::Formatter<W>) -> fmt::Result {
        let place = self.0.place();
        let words = match self.0 {
            Refusal::Broken(broken) => match broken.rule {
                Rule::BadLine => "this is no line of a key and a value in plain bytes",
                Rule::Unexpected => "another key or word is due here",
                Rule::OutOfRange => "a number or a list is out of form, range or turn",
                Rule::TooManyStates => "the plant has too many states",
                Rule::WrongArc =>
                    "an arc leads to its own start, into the door, or is out of order",
                Rule::NoFullRenewal => "not even the renewal of everything is feasible",
            },
            Refusal::BeyondReach(_) => "so many sweeps drive a value beyond its reach",
        };
        write!(f, "line {place}: {words}")
    }
}
