// The limits of a pair, each named once; specs/Limits.antt has the same numbers for the contracts.

// The largest setup, inspection, planned or forced renewal, in cents, and the highest threshold, in ten-thousandths.
pub use interface::limits::{MOST_CHARGE, MOST_THRESHOLD};

pub const LEAST_GRADES: usize = 2;

pub const MOST_GRADES: usize = 8;
// The hundredths of one row add up to this number.
pub const HUNDRED: u32 = 100;

// The largest number of dark seconds of one failed unit.
pub const MOST_DARK: u32 = 5000;
