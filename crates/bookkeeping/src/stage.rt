//! The stages of a book.
/// Where a book stands: open for an order, with its order issued, or with its window on air.
#[derive(Clone, Copy, PartialEq, Eq, Debug)]
pub enum Stage {
    /// The next window may be ordered.
    Open,
    /// An order is out, and is carried out next.
    Issued,
    /// A window was carried out, and its outcome is reported next.
    OnAir,
}
