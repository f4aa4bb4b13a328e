// What a window of a chain comes to.
ghost use Rattle.chain.specs.Portfolios.{worn_renewed};
ghost use Rattle.chain.specs.Windows.{ComesTo};
ghost use Rattle.std.specs.Prelude.{◌≡◌, true, false, MatchOption};

use crate::plant::Chain;
use workorder::holds;

#[derive(Clone, Copy)]
pub(crate) struct Window {
    // Of all parts together.
    pub(crate) hazards: u32,
    // Of the part asked about, and 0 where the chain has no such part. An Option would be no plainer: who asks knows by the
    // outcome's number whether there is one, and does not read the 0.
    pub(crate) hazard: u32,
    // The number of the state in which every part is one window older than at its start, and none has failed.
    pub(crate) next: usize,
}

impl Chain {
    // The window with this portfolio in this state; absent exactly when a part at its life is not renewed.
    // Each turn takes the age of one part from the state's number, and puts the age a window later into the next one's.
    // The part asked about is the number of an outcome as it comes, and outcome 0 is of no part, so 0 asks about none.
    pub(crate) fn coming_window(
        &self,
        state: usize,
        portfolio: usize,
        asked: usize,
    ) -> Option<Window>
        ensures { MatchOption result (worn_renewed self.now.numbers state portfolio ≡ false) (λ w. (worn_renewed self.now.numbers state portfolio ≡ true) × ComesTo self.now.numbers state portfolio asked w) }
    {
        let mut rest = state / (self.numbers.count + 1);
        let mut width = 1;
        let mut total = 0;
        let mut hazards = 0;
        let mut asked_hazard = 0;
        for (number, part) in (1..).zip(self.numbers.parts()) {
            let renewed = holds(portfolio, number);
            let start = part.start_age(rest % part.life + 1, renewed)?;
            let hazard = part.hazards[start];
            hazards += hazard;
            total += start * width;
            rest /= part.life;
            width *= part.life;
            if number == asked {
                asked_hazard = hazard;
            }
        }
        Some(Window {
            hazards,
            hazard: asked_hazard,
            next: (self.numbers.count + 1) * total,
        })
    }
}
