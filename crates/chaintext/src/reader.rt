// What is read so far of a chain's text.
use chain::limits::MOST_ARCS;
use chain::numbers::Part;
use workorder::{Arc, MAX_PARTS};

// What is due next.
#[derive(Clone, Copy, PartialEq, Eq, Debug)]
pub enum Stage {
    Kind,
    Parts,
    Threshold,
    Setup,
    Alarm,
    Part,
    Life,
    Hazard,
    Surplus,
    Dark,
    // An arc, or the end.
    Arc,
    Done,
}

// The numbers in front of the parts.
#[derive(Clone, Copy)]
pub struct Head {
    pub count: usize,
    pub threshold: u32,
    pub setup: u32,
    pub alarm: u32,
}

// The part opened last has the number `opened`; its record is at `opened` - 1, and is lent to be filled. The tables of the
// parts and of the arcs are fixed, each with its count beside it: a reader takes no memory, there are never more than
// MAX_PARTS or MOST_ARCS, and the reader is Copy, which a list with a count of its own is not. ChainNumbers are made of them
// where the text ends: until then `count` is how many parts are to come, and not how many records are filled.
#[derive(Clone, Copy)]
pub struct ChainReader {
    pub stage: Stage,
    pub head: Head,
    pub opened: usize,
    pub parts: [Part; MAX_PARTS],
    pub arc_count: usize,
    pub arcs: [Arc; MOST_ARCS],
}
