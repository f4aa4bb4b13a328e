// The numbers that a chain is made of.
use crate::limits::{MOST_ARCS, MOST_LIFE};
use workorder::{Arc, MAX_PARTS};

#[derive(Clone, Copy)]
pub struct Part {
    // The age at which the part has to be renewed.
    pub life: usize,
    // The ten-thousandths of failing in a window that the part starts at age 0, 1 and so on, up to its life.
    // What lies beyond is ignored; the life stands beside the table for the reason at ChainNumbers.
    pub hazards: [u32; MOST_LIFE],
    // In cents: paid beside the alarm when the part is renewed because it failed.
    pub surplus: u32,
    // The dark seconds of a window that the part begins failed.
    pub dark: u32,
}

// Part i is at index i - 1. What lies beyond the parts and the arcs is ignored. A plain record with fixed tables and their
// counts, so that a caller fills it field by field, without memory, and Chain::new alone judges it: lists with an invariant
// of their own would have to refuse a count that is out of range before.
#[derive(Clone, Copy)]
pub struct ChainNumbers {
    // How many parts there are.
    pub count: usize,
    // The least survival, in ten-thousandths.
    pub threshold: u32,
    // In cents: paid once if anything is renewed.
    pub setup: u32,
    // In cents: paid when a part has failed.
    pub alarm: u32,
    pub parts: [Part; MAX_PARTS],
    // How many arcs there are, and the arcs, in any order.
    pub arc_count: usize,
    pub arcs: [Arc; MOST_ARCS],
}
