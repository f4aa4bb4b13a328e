// The worked figures, established of the definitions.
#![tactic(auto)]

ghost use Rattle.std.specs.Prelude.{◌≡◌};
ghost use Rattle.figures.specs.Worked.{WorkedFigures};

// How many groups of figures there are: work orders, bills of a chain, survival of a pair, plans after sweeps, two windows
// against a rival, pasts of books.
const GROUPS: u32 = 6;

// The figures hold. Its answer is the number of their groups.
pub fn figures_hold() -> u32
    ensures figures { WorkedFigures }
    ensures groups { result ≡ 6 }
{
    GROUPS
}
