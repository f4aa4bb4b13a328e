// What a state of a pair is; its number is in plant.rt.

// The grades of both units, each from 1.
#[derive(Clone, Copy, PartialEq, Eq, Debug)]
pub struct Grades {
    pub one: usize,
    pub two: usize,
}
