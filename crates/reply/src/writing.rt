// The lines of a plan, put one behind the other.
ghost use Rattle.std.specs.Prelude.{◌≡◌, ◌≤◌, ◌++◌, length, OnOk};
ghost use Rattle.interface.specs.Limits.{most_states};
ghost use Rattle.plantext.specs.Lines.{plan_text};
ghost use Rattle.reply.specs.Plans.{plan_of};

use interface::claims::Claims;
use interface::tariff::Tariff;
use plantext::stage::LINES_BEFORE_ROWS;
use plantext::writing::{LINE_ROOM, plan_line};
use std::alloc::AllocError;

// Puts all lines of a plan behind what stands in `out`. Tables and claims are as plan_line takes them.
pub(crate) fn push_plan<T: Tariff>(
    tariff: &T,
    values: &[T::Amount],
    policy: &[u16],
    claims: Claims<T::Amount>,
    out: &mut Vec<u8>,
) -> Result<(), AllocError>
    requires some { 1 ≤ length values.now }
    requires few { length values.now ≤ most_states }
    requires level { length policy.now ≡ length values.now }
    ensures { OnOk result (out.new.items ≡ out.old.items ++ plan_text (plan_of T.Tariff.row values.now policy.now claims)) }
{
    // The rows, the lines before them, and the end.
    let count = values.len() + LINES_BEFORE_ROWS + 1;
    // plan_line takes no memory, so the space of a line is lent to it; and it is asked for the lines by number, as there is
    // no slice of them to go over.
    let mut space = [0; LINE_ROOM];
    for j in 0..count {
        let written = plan_line(tariff, values, policy, claims, j, &mut space);
        // A line stands at the front of its space, and its length is all that plan_line answers.
        let length = written.unwrap().unwrap();
        out.extend_from_slice(&space[0..length])?;
    }
    Ok(())
}
