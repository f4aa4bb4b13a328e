// A book followed window by window, told as one number.
ghost use Rattle.std.specs.Prelude.{◌≡◌, IfOk};
ghost use Rattle.bookkeeping.specs.Books.{Account};
ghost use Rattle.bench.specs.Booking.{Books, ComesTo, Window, drawn, with_account};

use crate::mixing::mix;
use bookkeeping::book::{OnAir, Open};
use bookkeeping::refusal::Refusal;
use interface::limits::MOST_STATES;
use interface::plant::Plant;

// The outcome that is drawn by the number so far.
fn draw<P: Plant>(plant: &P, book: &OnAir, digest: u64) -> usize
    ensures { result ≡ drawn (P.model plant.now) book.now digest }
{
    let count = plant.outcome_count(book.state(), usize::from(book.portfolio()));
    (digest >> 33) as usize % count.max(1)
}

// One window: an order by the policy, its carry-out, and the report of the outcome that is drawn.
fn window<P: Plant>(plant: &P, policy: &[u16], book: Open, digest: u64) -> Result<Open, Refusal>
    ensures { IfOk result (Window (P.model plant.now) policy.now book digest) }
{
    match book.issue(plant, policy) {
        Err(refused) => Err(refused.why),
        Ok(order) => {
            let on_air = order.carry_out();
            let outcome = draw(plant, &on_air, digest);
            match on_air.report(plant, outcome) {
                Err(refused) => Err(refused.why),
                Ok(next) => Ok(next),
            }
        }
    }
}

// What the book shows, mixed into the number so far.
fn mix_book(digest: u64, book: &Open) -> u64
    ensures { result ≡ with_account digest book.now }
{
    mix(
        mix(mix(digest, book.state() as u64), book.seconds()),
        book.cents(),
    )
}

// So many windows of a new book in state 0.
fn book_windows<P: Plant>(plant: &P, policy: &[u16], windows: u32) -> Result<u64, Refusal>
    ensures { IfOk result (λ d. (a : Account) × Books (P.model plant.now) policy.now windows a d) }
{
    let mut book = Open::make(plant, 0)?;
    let mut digest = 0;
    for _window in 0..windows {
        book = window(plant, policy, book, digest)?;
        digest = mix_book(digest, &book);
    }
    Ok(digest)
}

// The same by the policy that renews everything always, in a table of its own.
pub(crate) fn told_book<P: Plant>(plant: &P, windows: u32) -> Result<u64, Refusal>
    ensures { IfOk result (ComesTo (P.model plant.now) windows) }
{
    let states = plant.states();
    let everything = (plant.portfolios() - 1) as u16;
    let policy = [everything; MOST_STATES];
    // A slice first, then the entries in use, as for a plan.
    let policy = &policy[..];
    book_windows(plant, &policy[..states], windows)
}
