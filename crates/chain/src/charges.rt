// What a window of a chain costs beside its work order.
ghost use Rattle.std.specs.Prelude.{◌≡◌, ◌+◌, ◌*◌, ◌≤◌, MatchOption};
ghost use Rattle.chain.specs.Chains.{dark_seconds as the_dark, failure_charge as the_charge};
ghost use Rattle.chain.specs.Limits.{most_charge};
ghost use Rattle.chain.specs.Parts.{LawfulPart, part_of};
ghost use Rattle.chain.specs.States.{failed_in};

use crate::numbers::Part;
use crate::plant::Chain;

impl Chain {
    // The part that has failed in a state, if there is one.
    fn failed_part(&self, state: usize) -> Option<&Part>
        ensures { let f = failed_in self.now.numbers state in MatchOption result (f ≡ 0) (λ p. (1 ≤ f) × ((p.now ≡ part_of self.now.numbers f) × LawfulPart p.now)) }
    {
        match self.failed_in(state) {
            0 => None,
            failed => Some(&self.numbers.parts[failed - 1]),
        }
    }

    // In cents: the alarm and the surplus of the part that has failed in a state, if there is one.
    pub(crate) fn failure_charge(&self, state: usize) -> u32
        ensures value { result ≡ the_charge self.now.numbers (failed_in self.now.numbers state) }
        ensures few { result ≤ 2 * most_charge }
    {
        self.failed_part(state)
            .map_or(0, |part| self.numbers.alarm + part.surplus)
    }

    // The dark seconds of the part that has failed in a state, if there is one.
    pub(crate) fn dark_seconds(&self, state: usize) -> u32
        ensures { result ≡ the_dark self.now.numbers (failed_in self.now.numbers state) }
    {
        self.failed_part(state).map_or(0, |part| part.dark)
    }
}
