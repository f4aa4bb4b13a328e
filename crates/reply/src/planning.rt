// The plan of a plant under a tariff, in tables of its own.
ghost use Rattle.std.specs.Prelude.{◌≡◌, length};
ghost use Rattle.reply.specs.Replies.{Answered, PlansAs};

use crate::answer::{Refusal, Unanswered};
use crate::sweeps::Sweeps;
use crate::writing::push_plan;
use interface::plant::Plant;
use interface::tariff::Tariff;
use planner::plan::plan;
use std::alloc::Global;

// Plans in the lent tables, and gives the text of the plan. The planner takes each table as a slice, and so does this.
fn text_of_plan<P: Plant, T: Tariff>(
    heap: Global,
    plant: &P,
    tariff: &T,
    sweeps: Sweeps,
    values: &mut [T::Amount],
    working: &mut [T::Amount],
    policy: &mut [u16],
) -> Result<Vec<u8>, Unanswered>
    requires values { length values.old ≡ (P.model plant.now).states }
    requires working { length working.old ≡ (P.model plant.now).states }
    requires policy { length policy.old ≡ (P.model plant.now).states }
    ensures { Answered (PlansAs (P.model plant.now) (T.scale tariff.now) sweeps.named) (Unit {0}) result }
{
    let planned = plan(plant, tariff, sweeps.named.count, values, working, policy);
    // The sweeps are few and the tables long enough: a value beyond reach is all that is refused here.
    let claims = planned.map_err(|_| Refusal::BeyondReach(sweeps.named.line))?;
    let mut text = Vec::new(heap);
    push_plan(tariff, values, policy, claims, &mut text)?;
    Ok(text)
}

// The reply for a plant and a tariff.
pub(crate) fn reply_with<P: Plant, T: Tariff>(
    heap: Global,
    plant: &P,
    tariff: &T,
    sweeps: Sweeps,
) -> Result<Vec<u8>, Unanswered>
    ensures { Answered (PlansAs (P.model plant.now) (T.scale tariff.now) sweeps.named) (Unit {0}) result }
{
    let states = plant.states();
    let mut values = vec![in heap; tariff.zero(); states]?;
    let mut working = vec![in heap; tariff.zero(); states]?;
    let mut policy = vec![in heap; 0; states]?;
    text_of_plan(
        heap,
        plant,
        tariff,
        sweeps,
        &mut values,
        &mut working,
        &mut policy,
    )
}
