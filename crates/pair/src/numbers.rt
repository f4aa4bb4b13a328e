// The numbers that a pair is made of.
use crate::limits::MOST_GRADES;

// One unit. The row of grade g is at index g - 1, and in it the hundredths of the next grade h at index h - 1.
// What lies beyond the grades is ignored. A plain record with fixed tables and their count, so that a caller fills it field
// by field, without memory, and Pair::new alone judges it.
#[derive(Clone, Copy)]
pub struct UnitNumbers {
    // The last grade is failed.
    pub grades: usize,
    pub rows: [[u32; MOST_GRADES]; MOST_GRADES],
    // The cents of a renewal before the unit has failed, and after.
    pub planned: u32,
    pub forced: u32,
    // The dark seconds of a window that the unit begins failed.
    pub dark: u32,
}

#[derive(Clone, Copy)]
pub struct PairNumbers {
    // The least survival, in ten-thousandths.
    pub threshold: u32,
    // In cents: paid once if anything is renewed.
    pub setup: u32,
    // In cents: paid in every window.
    pub inspect: u32,
    pub one: UnitNumbers,
    pub two: UnitNumbers,
}
