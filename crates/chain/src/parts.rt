// The parts of a chain.
ghost use Rattle.std.specs.Prelude.{◌≡◌, ◌≤◌, if◌then◌else◌, Some, None, length, nat_eq, take};
ghost use Rattle.chain.specs.Chains.{hazards_at};
ghost use Rattle.workorder.specs.Orders.{max_parts};

use crate::numbers::{ChainNumbers, Part};
use crate::ranges::InRange;

impl Part {
    // The age at which the part starts the window, 0 if it is renewed; absent exactly when it is at its life and not renewed.
    pub(crate) fn start_age(&self, age: usize, renewed: bool) -> Option<usize>
        ensures { result ≡ (if renewed then Some 0 else (if nat_eq age self.now.life then None else Some age)) }
    {
        if renewed {
            Some(0)
        } else if age == self.life {
            None
        } else {
            Some(age)
        }
    }
}

impl ChainNumbers {
    // The parts that there are, without what lies beyond them. The count's bound is asked here and where else it is needed, since
    // any numbers may come: InRange and Chain, which know it, both ask, and a method of each would be there twice.
    pub(crate) fn parts(&self) -> &[Part]
        requires { self.now.count ≤ max_parts }
        ensures value { result.now ≡ take self.now.count self.now.parts }
        ensures long { length result.now ≡ self.now.count }
    {
        &self.parts[..self.count]
    }
}

impl InRange {
    // The hazards of all parts together when all are new.
    pub(crate) fn hazards_when_new(&self) -> u32
        ensures { result ≡ hazards_at self.now.numbers (λ _. 0) }
    {
        self.numbers
            .parts()
            .iter()
            .map(|part| part.hazards[0])
            .sum()
    }
}
