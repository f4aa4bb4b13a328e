ghost use Rattle.std.specs.Prelude.{◌≡◌, ℕ, ◌<◌, ◌≤◌, List, ◌∷◌, IfSome, IfNone};
ghost use Rattle.std.specs.Bool.{OnTrue, OnFalse};
ghost use Rattle.interface.specs.Rows.{Row};
ghost use Rattle.service.specs.Services.{Turn, shows, to_issue, to_carry_out, to_make, to_report, AsksIf, AsksFor, IsTold, IsToldRefusal, Keeps, rows_of};

use bookkeeping::refusal::Refusal;
use bookkeeping::standing::{Answer, Standing};
use certificate::finding::Finding;
use interface::tariff::Tariff;

/// Who drives a book: is shown what was found of the plan, asks for each call, and is told what
/// came of it.
pub trait Operator {
    /// What was shown, asked and told so far, the newest first.
    ghost turns: { Self → List Turn };

    /// The last finding that was shown has these rows: low, high, top and bottom.
    ghost was_shown: { Self → List Row → Type 0 };

    /// An upper limit of how much it still asks. No operator asks for ever, though it may go on for
    /// years.
    ghost left: { Self → ℕ };

    /// It has nothing more to ask.
    ghost is_done: { Self → Type 0 };

    /// Is shown the finding of the check.
    fn found<T: Tariff>(&mut self, tariff: &T, finding: &Finding<T::Amount>)
        ensures turns { turns self.new ≡ shows ∷ turns self.old }
        ensures left { left self.new ≤ left self.old }
        ensures shown { was_shown self.new (rows_of T.Tariff.row finding.now) };

    /// The state in which a book is asked for; none where nothing more is asked.
    fn state(&mut self) -> Option<usize>
        ensures turns { AsksFor to_make result (turns self.old) (turns self.new) }
        ensures fewer { IfSome result (λ _. left self.new < left self.old) }
        ensures done { IfNone result (is_done self.new) }
        ensures shown { Keeps (was_shown self.old) (was_shown self.new) };

    /// Whether the next order is asked for; if not, nothing more is.
    fn order(&mut self) -> bool
        ensures turns { AsksIf to_issue result (turns self.old) (turns self.new) }
        ensures fewer { OnTrue result (left self.new < left self.old) }
        ensures done { OnFalse result (is_done self.new) }
        ensures shown { Keeps (was_shown self.old) (was_shown self.new) };

    /// Whether the carrying out of the order is asked for; if not, nothing more is.
    fn carry_out(&mut self) -> bool
        ensures turns { AsksIf to_carry_out result (turns self.old) (turns self.new) }
        ensures fewer { OnTrue result (left self.new < left self.old) }
        ensures done { OnFalse result (is_done self.new) }
        ensures shown { Keeps (was_shown self.old) (was_shown self.new) };

    /// The number of the outcome that is reported; none where nothing more is.
    fn outcome(&mut self) -> Option<usize>
        ensures turns { AsksFor to_report result (turns self.old) (turns self.new) }
        ensures fewer { IfSome result (λ _. left self.new < left self.old) }
        ensures done { IfNone result (is_done self.new) }
        ensures shown { Keeps (was_shown self.old) (was_shown self.new) };

    /// Is told that no book is made in a state, and why.
    fn not_made(&mut self, why: Refusal)
        ensures turns { IsToldRefusal why (turns self.old) (turns self.new) }
        ensures left { left self.new ≤ left self.old }
        ensures shown { Keeps (was_shown self.old) (was_shown self.new) };

    /// Is told the answer to a call, and shown the book as it then stands.
    fn tell(&mut self, answer: Answer, book: &Standing)
        ensures turns { IsTold answer book.now (turns self.old) (turns self.new) }
        ensures left { left self.new ≤ left self.old }
        ensures shown { Keeps (was_shown self.old) (was_shown self.new) };
}
