// Following a certificate with a book.
ghost use Rattle.std.specs.Prelude.{◌≡◌, ◌↔◌, ℕ, ◌<◌, ◌≤◌, map, length, IsOk, IfOk, IfErr, IsNone};
ghost use Rattle.interface.specs.Limits.{most_windows};
ghost use Rattle.bookkeeping.specs.Standings.{book_of};
ghost use Rattle.certificate.specs.Certificates.{Sound};
ghost use Rattle.certificate.specs.Findings.{Finds};
ghost use Rattle.certificate.specs.RefusedAs.{RefusedAs};
ghost use Rattle.following.specs.Endings.{WentThrough, WindowRefused, Ends, CanGo, Follows};
ghost use Rattle.following.specs.Promises.{Promised};
ghost use Rattle.following.specs.Refusals.{IsUnfollowed};

use crate::accept::accept;
use bookkeeping::book::Open;
use bookkeeping::refusal::{Refusal, Refused};
use bookkeeping::standing::Standing;
use certificate::finding::Finding;
use interface::claims::Claims;
use interface::plant::Plant;
use interface::tariff::Tariff;

/// What following a certificate came to.
#[derive(Drop, Debug)]
pub struct Followed<A> {
    /// The finding of the certificate.
    pub finding: Finding<A>,
    /// The book, where the last call that was done left it.
    pub book: Standing,
    /// How many windows went through.
    pub windows: usize,
    /// Why the next call was refused, none if all outcomes went through.
    pub refused: Option<Refusal>,
}

/// A certificate that is not followed.
#[derive(Drop, Debug)]
pub struct Unfollowed {
    /// The book that was given.
    pub book: Open,
    /// Why the certificate is refused.
    pub why: certificate::refusal::Refusal,
}

// Where a book came to.
#[derive(Drop, Debug)]
struct Walked {
    book: Standing,
    windows: usize,
    refused: Option<Refusal>,
}

// One window: ordered, carried out, and its outcome reported.
fn window<P: Plant>(
    plant: &P,
    policy: &[u16],
    book: Open,
    outcome: usize,
) -> Result<Open, Refused<Standing>>
    ensures through { IfOk result (WentThrough (P.model plant.now) policy.now book outcome) }
    ensures refused { IfErr result (λ r.
        WindowRefused (P.model plant.now) policy.now book outcome (book_of r.book) r.why) }
{
    match book.issue(plant, policy) {
        Ok(order) => match order.carry_out().report(plant, outcome) {
            Ok(next) => Ok(next),
            Err(refused) => Err(Refused {
                book: Standing::OnAir(refused.book),
                why: refused.why,
            }),
        },
        Err(refused) => Err(Refused {
            book: Standing::Open(refused.book),
            why: refused.why,
        }),
    }
}

// A window for each outcome, up to the first that is refused.
fn walk<P: Plant>(plant: &P, policy: &[u16], book: Open, outcomes: &[usize]) -> Walked
    ensures { Ends (P.model plant.now) policy.now book outcomes.now
        result.windows (book_of result.book) result.refused }
{
    let mut book = book;
    for (windows, outcome) in outcomes.iter().enumerate() {
        match window(plant, policy, book, *outcome) {
            Ok(next) => book = next,
            Err(refused) => {
                return Walked {
                    book: refused.book,
                    windows,
                    refused: Some(refused.why),
                };
            }
        }
    }
    Walked {
        book: Standing::Open(book),
        windows: outcomes.len(),
        refused: None,
    }
}

/// Checks a certificate, and follows it with an open book through a window for each outcome, up to
/// the first call that is refused. If the certificate is refused, the book comes back as it was.
pub fn follow<P: Plant, T: Tariff>(
    plant: &P,
    tariff: &T,
    values: &[T::Amount],
    policy: &[u16],
    claims: Claims<T::Amount>,
    book: Open,
    outcomes: &[usize],
) -> Result<Followed<T::Amount>, Unfollowed>
    // followed exactly when sound
    ensures exact { IsOk result
        ↔ Sound (P.model plant.now) (T.scale tariff.now) (map T.Tariff.row values.now) policy.now
        (T.Tariff.row claims.low) (T.Tariff.row claims.high) }
    // else the very same book comes back
    ensures kept { IfErr result (λ u. u.book ≡ book) }
    // not followed for a rule at a place exactly when that rule is broken there, and none before it
    ensures refused { (n p : ℕ) → IsUnfollowed result n p
        ↔ RefusedAs (P.model plant.now) (T.scale tariff.now) (map T.Tariff.row values.now)
        policy.now (T.Tariff.row claims.low) (T.Tariff.row claims.high) n p }
    // what is followed is followed with its finding
    ensures finding { IfOk result (λ f.
        Finds T.Tariff.row (P.model plant.now) (T.scale tariff.now) (map T.Tariff.row values.now)
        claims.low claims.high f.finding) }
    // whatever happens to this list, the finding bounds the cost of every book that follows
    ensures promise { IfOk result (λ f.
        Promised T.Tariff.row (P.model plant.now) (T.scale tariff.now) policy.now f.finding) }
    // how far the book came, and what was refused first
    ensures ends { IfOk result (λ f.
        Ends (P.model plant.now) policy.now book outcomes.now
        f.windows (book_of f.book) f.refused) }
    // nothing is refused exactly when all outcomes went through
    ensures all { IfOk result (λ f. IsNone f.refused ↔ (f.windows ≡ length outcomes.now)) }
    // of a book that stands in a state of the plant, with no more windows than a book may have,
    // nothing is refused exactly when it can meet the list, with room for it
    ensures whole { IfOk result (λ f.
        book.state < (P.model plant.now).states → book.windows ≤ most_windows
        → IsNone f.refused ↔ CanGo (P.model plant.now) policy.now book outcomes.now) }
    // each past of the book goes on by the calls of these windows
    ensures past { IfOk result (λ f.
        Follows (P.model plant.now) policy.now book outcomes.now
        f.windows (book_of f.book) f.refused) }
{
    match accept(plant, tariff, values, policy, claims) {
        Err(why) => Err(Unfollowed { book, why }),
        Ok(finding) => {
            let walked = walk(plant, policy, book, outcomes);
            Ok(Followed {
                finding,
                book: walked.book,
                windows: walked.windows,
                refused: walked.refused,
            })
        }
    }
}
