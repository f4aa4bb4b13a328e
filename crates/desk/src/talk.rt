use crate::asking::Due;
use crate::saying::{FindingLines, Told};
use crate::terminal::Heard;

/// One turn of the talk at a desk.
#[derive(Drop)]
pub enum Turn {
    /// A line was heard, and this was due.
    Heard(Due, Heard),
    /// The operator was told this.
    Told(Told),
    /// The finding was shown, in these lines.
    Shown(FindingLines),
}
