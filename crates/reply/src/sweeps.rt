// The number of sweeps of a request, as it was read.
ghost use Rattle.std.specs.Prelude.{◌≤◌};
ghost use Rattle.planner.specs.Sweeps.{most_sweeps};

use request::sweeps::SweepsLine;

// The sweeps line that a request has; its number is one that the planner takes. The line by itself says no such thing, as
// anyone can make one.
#[derive(Clone, Copy)]
pub(crate) struct Sweeps {
    pub(crate) named: SweepsLine,
    ghost few: { named.count ≤ most_sweeps },
}
