ghost use Rattle.std.specs.Prelude.{◌≡◌, ℕ, ◌^◌, ◌<◌, Bool, true, List, ◌∷◌, length, IfNone};
ghost use Rattle.desk.specs.Terminals.{Hears};

use arrayvec::ArrayVec;
use plantext::line::LineText;

/// Room for a line that is heard: one byte more than the longest line with its line end.
pub const HEARD_ROOM: usize = 202;

/// A line that was heard, with its line end. Of a longer line this holds the beginning, and the
/// line end if it has one.
pub type Heard = ArrayVec<u8, HEARD_ROOM>;

/// Where lines are heard and said.
pub trait Terminal {
    /// The lines that were heard, the newest first.
    ghost heard: { Self → List (List ℕ) };

    /// The lines that were said, the newest first.
    ghost said: { Self → List (List ℕ) };

    /// Whether nothing more is heard.
    ghost ended: { Self → Bool };

    /// The next line; none where nothing more is heard.
    fn hear(&mut self) -> Option<Heard>
        ensures heard { Hears result (heard self.old) (heard self.new) }
        ensures ended { IfNone result (ended self.new ≡ true) }
        ensures few { length (heard self.new) < 2 ^ 64 }
        ensures said { said self.new ≡ said self.old };

    /// How many lines were heard: the number of the newest.
    fn lines(&self) -> usize
        ensures { result ≡ length (heard self.now) };

    /// Says a line at once. Where that fails, nothing more is heard.
    fn say(&mut self, line: &LineText)
        ensures heard { heard self.new ≡ heard self.old }
        ensures said { said self.new ≡ line.now.bytes.items ∷ said self.old };
}
