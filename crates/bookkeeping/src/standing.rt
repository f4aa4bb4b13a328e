//! A book at any stage, what is asked of it and what it is told.
ghost use Rattle.std.specs.Prelude.{◌≡◌, ◌↔◌, true, IsSome, IfSome};
ghost use Rattle.std.specs.Option.{option_map};
ghost use Rattle.bookkeeping.specs.Books.{account_of, held_by};
ghost use Rattle.bookkeeping.specs.Log.{stage_of};
ghost use Rattle.bookkeeping.specs.LookingBack.{Continues};
ghost use Rattle.bookkeeping.specs.Standings.{book_of, asked, event_of, fits, Answered};

use crate::book::{Issued, OnAir, Open};
use crate::refusal::Refusal;
use crate::stage::Stage;
use interface::plant::Plant;

/// A book at any stage.
#[derive(Drop, Debug)]
pub enum Standing {
    /// A book whose next window may be ordered.
    Open(Open),
    /// A book whose order is out.
    Issued(Issued),
    /// A book whose window was carried out.
    OnAir(OnAir),
}

/// What is asked of a book.
#[derive(Clone, Copy, Debug)]
pub enum Call<'a> {
    /// To order what this policy names.
    Issue(&'a [u16]),
    /// To carry the order out.
    CarryOut,
    /// To book the outcome of this number.
    Report(usize),
}

/// What a call is told.
#[derive(Clone, Copy, PartialEq, Eq, Debug)]
pub enum Answer {
    /// The call was done, and the book stands at this stage.
    Next(Stage),
    /// The call was refused, and the book is as it was.
    Refused(Refusal),
}

impl Standing {
    /// One call of the book. A call that does not fit its stage has no answer and leaves the book
    /// as it is.
    pub fn call<P: Plant>(self, plant: &P, call: &Call) -> (Standing, Option<Answer>)
        ensures fits { IsSome result.1 ↔
            (fits (book_of self) (asked (P.model plant.now) call.now) ≡ true) }
        ensures answered { Answered (book_of self) (asked (P.model plant.now) call.now) result.1
            (book_of result.0) }
        ensures past { IfSome result.1 (λ answer. Continues (book_of self)
            (event_of (asked (P.model plant.now) call.now) answer) (book_of result.0)) }
    {
        match (self, call) {
            (Standing::Open(book), Call::Issue(policy)) => match book.issue(plant, policy) {
                Ok(next) => (Standing::Issued(next), Some(Answer::Next(Stage::Issued))),
                Err(refused) => (
                    Standing::Open(refused.book),
                    Some(Answer::Refused(refused.why)),
                ),
            },
            (Standing::Issued(book), Call::CarryOut) => (
                Standing::OnAir(book.carry_out()),
                Some(Answer::Next(Stage::OnAir)),
            ),
            (Standing::OnAir(book), Call::Report(outcome)) => match book.report(plant, *outcome) {
                Ok(next) => (Standing::Open(next), Some(Answer::Next(Stage::Open))),
                Err(refused) => (
                    Standing::OnAir(refused.book),
                    Some(Answer::Refused(refused.why)),
                ),
            },
            (book, _) => (book, None),
        }
    }

    /// The stage of the book.
    pub fn stage(&self) -> Stage
        ensures { result ≡ stage_of (book_of self.now) }
    {
        match self {
            Standing::Open(_) => Stage::Open,
            Standing::Issued(_) => Stage::Issued,
            Standing::OnAir(_) => Stage::OnAir,
        }
    }

    /// The state in which the book stands.
    pub fn state(&self) -> usize
        ensures { result ≡ (account_of (book_of self.now)).state }
    {
        match self {
            Standing::Open(book) => book.state(),
            Standing::Issued(book) => book.state(),
            Standing::OnAir(book) => book.state(),
        }
    }

    /// How many windows are booked.
    pub fn windows(&self) -> u32
        ensures { result ≡ (account_of (book_of self.now)).windows }
    {
        match self {
            Standing::Open(book) => book.windows(),
            Standing::Issued(book) => book.windows(),
            Standing::OnAir(book) => book.windows(),
        }
    }

    /// The dark seconds that are booked, added up.
    pub fn seconds(&self) -> u64
        ensures { result ≡ (account_of (book_of self.now)).seconds }
    {
        match self {
            Standing::Open(book) => book.seconds(),
            Standing::Issued(book) => book.seconds(),
            Standing::OnAir(book) => book.seconds(),
        }
    }

    /// The cents that are booked, added up.
    pub fn cents(&self) -> u64
        ensures { result ≡ (account_of (book_of self.now)).cents }
    {
        match self {
            Standing::Open(book) => book.cents(),
            Standing::Issued(book) => book.cents(),
            Standing::OnAir(book) => book.cents(),
        }
    }

    /// The portfolio that the book holds, none while it is open.
    pub fn portfolio(&self) -> Option<u16>
        ensures { result ≡ held_by (book_of self.now) }
    {
        match self {
            Standing::Open(_) => None,
            Standing::Issued(book) => Some(book.portfolio()),
            Standing::OnAir(book) => Some(book.portfolio()),
        }
    }
}
