//! Why a call of a book is refused.
ghost use Rattle.std.specs.Prelude.{◌≡◌};
ghost use Rattle.bookkeeping.specs.Refusals.{number_of, place_of};

/// Why a book is not made, or a call of it is not done.
#[derive(Clone, Copy, PartialEq, Eq, Debug)]
pub enum Refusal {
    /// The plant does not know the state, or does not allow what was carried out in it.
    NoState(usize),
    /// The policy's length is not the number of states.
    WrongLength,
    /// The policy's entry for the state is not feasible.
    Infeasible(usize),
    /// There is no outcome of this number.
    NoOutcome(usize),
    /// The book takes no more windows.
    Full,
}

impl Refusal {
    /// The number that stands for the reason.
    pub fn number(self) -> u32
        ensures { result ≡ number_of self }
    {
        match self {
            Refusal::NoState(_) => 21,
            Refusal::WrongLength => 7,
            Refusal::Infeasible(_) => 22,
            Refusal::NoOutcome(_) => 23,
            Refusal::Full => 24,
        }
    }

    /// The state or the outcome that the reason speaks of, 0 where it speaks of none.
    pub fn place(self) -> usize
        ensures { result ≡ place_of self }
    {
        match self {
            Refusal::NoState(state) => state,
            Refusal::WrongLength => 0,
            Refusal::Infeasible(state) => state,
            Refusal::NoOutcome(outcome) => outcome,
            Refusal::Full => 0,
        }
    }
}

/// A call that was not done: the book as it was before, and why.
#[derive(Drop, Debug)]
pub struct Refused<B> {
    /// The book that was given to the call.
    pub book: B,
    /// Why the call was not done.
    pub why: Refusal,
}
