// The states of a chain: the ages of its parts, and the part that has failed.
ghost use Rattle.std.specs.Prelude.{◌≡◌};
ghost use Rattle.chain.specs.States.{WithoutLoss, age_in, all_states, failed_in, number_of, state_at, table_of};

use crate::plant::Chain;
use crate::ranges::InRange;
use workorder::MAX_PARTS;

#[derive(Clone, Copy)]
pub struct ChainState {
    // The age of part i, from 1, is at index i - 1; what lies beyond the chain's parts is ignored, as in its numbers. The
    // table is fixed for the reason there: a caller fills it without memory.
    pub ages: [usize; MAX_PARTS],
    // The failed part, or 0 for none. Parts are numbered from 1, as in texts and arcs too. An Option would be no plainer: it
    // would allow Some(0), which is one more value to refuse.
    pub failed: usize,
}

impl InRange {
    // How many states there are: each part has its ages, and one or none has failed.
    pub(crate) fn state_count(&self) -> usize
        ensures { result ≡ all_states self.now.numbers }
    {
        let lives = self
            .numbers
            .parts()
            .iter()
            .map(|part| part.life)
            .product::<usize>();
        (self.numbers.count + 1) * lives
    }
}

impl Chain {
    // The failed part in a state, or 0, as it is in the state's number.
    pub(crate) fn failed_in(&self, state: usize) -> usize
        ensures { result ≡ failed_in self.now.numbers state }
    {
        state % (self.numbers.count + 1)
    }

    // The ages of the parts in a state.
    fn ages_in(&self, state: usize) -> [usize; MAX_PARTS]
        ensures { result ≡ table_of self.now.numbers (age_in self.now.numbers state) }
    {
        let mut ages = [0; MAX_PARTS];
        let mut rest = state / (self.numbers.count + 1);
        // By index: over `iter_mut().zip(..)` the check does not find what the array holds after the loop.
        for (i, part) in self.numbers.parts().iter().enumerate() {
            ages[i] = rest % part.life + 1;
            rest /= part.life;
        }
        ages
    }

    // The number of a state, absent exactly when a part cannot have its age or the chain has no such failed part.
    pub fn state_number(&self, state: &ChainState) -> Option<usize>
        ensures value { result ≡ number_of self.now.numbers state.now }
        ensures kept { WithoutLoss self.now.numbers }
    {
        if state.failed > self.numbers.count {
            return None;
        }
        let mut total = 0;
        let mut width = 1;
        for (part, &age) in self.numbers.parts().iter().zip(&state.ages) {
            if !(1..=part.life).contains(&age) {
                return None;
            }
            total += (age - 1) * width;
            width *= part.life;
        }
        Some((self.numbers.count + 1) * total + state.failed)
    }

    // The state with a number, absent from the number of states on.
    pub fn state_of(&self, number: usize) -> Option<ChainState>
        ensures value { result ≡ state_at self.now.numbers number }
        ensures kept { WithoutLoss self.now.numbers }
    {
        if number >= self.states {
            return None;
        }
        Some(ChainState {
            ages: self.ages_in(number),
            failed: self.failed_in(number),
        })
    }
}
