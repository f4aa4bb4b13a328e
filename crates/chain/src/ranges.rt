// Whether the numbers of a chain are in range.
ghost use Rattle.std.specs.Prelude.{◌≡◌, ◌≤◌, Decides, MatchOption};
ghost use Rattle.chain.specs.Limits.{most_arcs, most_charge, most_life};
ghost use Rattle.chain.specs.Parts.{LawfulHazards, LawfulNumbers, LawfulPart, LawfulParts, arcs_of};
ghost use Rattle.workorder.specs.Orders.{NoneDearer, max_parts};

use crate::limits::{MOST_ARCS, MOST_CHARGE, MOST_DARK, MOST_HAZARD, MOST_LIFE, MOST_THRESHOLD};
use crate::numbers::{ChainNumbers, Part};
use workorder::{Arc, MAX_PARTS};

impl Part {
    fn hazards_in_range(&self) -> bool
        requires { self.now.life ≤ most_life }
        ensures { Decides result (LawfulHazards self.now) }
    {
        self.hazards[..self.life]
            .iter()
            .all(|hazard| *hazard <= MOST_HAZARD)
    }

    pub fn in_range(&self) -> bool
        ensures { Decides result (LawfulPart self.now) }
    {
        if !(1..=MOST_LIFE).contains(&self.life) {
            return false;
        }
        if self.surplus > MOST_CHARGE || self.dark > MOST_DARK {
            return false;
        }
        self.hazards_in_range()
    }
}

impl ChainNumbers {
    // The bound of the count is asked for the reason at `parts`.
    fn parts_in_range(&self) -> bool
        requires { self.now.count ≤ max_parts }
        ensures { Decides result (LawfulParts self.now) }
    {
        self.parts().iter().all(|part| part.in_range())
    }

    fn arcs_in_range(&self) -> bool
        requires { self.now.arc_count ≤ most_arcs }
        ensures { Decides result (NoneDearer most_charge (arcs_of self.now)) }
    {
        self.arcs[..self.arc_count]
            .iter()
            .all(|arc| arc.cents <= MOST_CHARGE)
    }

    pub fn in_range(&self) -> bool
        ensures { Decides result (LawfulNumbers self.now) }
    {
        if !(1..=MAX_PARTS).contains(&self.count) || self.arc_count > MOST_ARCS {
            return false;
        }
        if self.threshold > MOST_THRESHOLD || self.setup > MOST_CHARGE || self.alarm > MOST_CHARGE {
            return false;
        }
        self.parts_in_range() && self.arcs_in_range()
    }
}

// Numbers that are all in range, on the way to a chain.
#[derive(Clone, Copy)]
pub(crate) struct InRange {
    pub(crate) numbers: ChainNumbers,
    ghost lawful: { LawfulNumbers numbers },
}

impl InRange {
    // A test first: in a closure under `then` the invariant would need a clause of its own.
    pub(crate) fn new(numbers: ChainNumbers) -> Option<InRange>
        ensures { MatchOption result (LawfulNumbers numbers → ⊥) (λ r. r.numbers ≡ numbers) }
    {
        if !numbers.in_range() {
            return None;
        }
        Some(InRange { numbers })
    }

    // The arcs that there are, without what lies beyond them.
    pub(crate) fn arcs(&self) -> &[Arc]
        ensures { result.now ≡ arcs_of self.now.numbers }
    {
        &self.numbers.arcs[..self.numbers.arc_count]
    }
}
