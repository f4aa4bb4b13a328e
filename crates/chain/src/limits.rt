// The limits of a chain, each named once; specs/Limits.antt has the same numbers for the contracts.
use workorder::MAX_PARTS;

// The largest setup, alarm, surplus or arc, in cents, and the highest threshold, in ten-thousandths.
pub use interface::limits::{MOST_CHARGE, MOST_THRESHOLD};

pub const MOST_LIFE: usize = 20;
// In ten-thousandths.
pub const MOST_HAZARD: u32 = 10_000;

pub const MOST_DARK: u32 = 10_000;
// Room for an arc from the door and from each part to each part.
pub const MOST_ARCS: usize = (MAX_PARTS + 1) * MAX_PARTS;
