// Whole plans, each told as one number.
ghost use Rattle.std.specs.Prelude.{◌≡◌, ◌*◌, ◌^◌, ◌<◌, map, fold};
ghost use Rattle.std.specs.Mem.{type_size};
ghost use Rattle.interface.specs.Limits.{most_states};
ghost use Rattle.tariffs.specs.AirFirst.{air_first_scale};
ghost use Rattle.tariffs.specs.Priced.{priced_scale};
ghost use Rattle.bench.specs.Digests.{mix as the_mix};
ghost use Rattle.bench.specs.Planning.{with_row, plan_told, Plans, PlanMade, model_of, cost_row, dark_row};

use crate::mixing::{mix, mix_place};
use chain::plant::Chain;
use interface::claims::Claims;
use interface::limits::MOST_STATES;
use interface::plant::Plant;
use interface::tariff::Tariff;
use planner::plan::plan;
use planner::refusal::Refusal;
use tariffs::air_first::AirFirst;
use tariffs::priced::Priced;

// The digest with all places of an amount. A tariff is asked for them by numbers: a fold over these would put the question
// into a closure with a clause of its own, and is no plainer.
fn mix_amount<T: Tariff>(tariff: &T, before: u64, amount: T::Amount) -> u64
    ensures { result ≡ with_row (T.scale tariff.now).places before (T.Tariff.row amount) }
{
    let mut digest = before;
    for i in 0..tariff.place_count() {
        digest = mix_place(digest, tariff.place(amount, i));
    }
    digest
}

fn mix_values<T: Tariff>(tariff: &T, before: u64, values: &[T::Amount]) -> u64
    ensures { result ≡
        fold (with_row (T.scale tariff.now).places) before (map T.Tariff.row values.now) }
{
    values.iter().fold(
        before,
        |digest, value| -> u64
            ensures { result ≡
                with_row (T.scale tariff.entry.now).places digest (T.Tariff.row value.now) }
        { mix_amount(tariff, digest, *value) },
    )
}

fn mix_policy(before: u64, policy: &[u16]) -> u64
    ensures { result ≡ fold the_mix before policy.now }
{
    policy.iter().fold(
        before,
        |digest, portfolio| mix(digest, u64::from(*portfolio)),
    )
}

// The claims, the values and the policy of a plan.
fn tell_plan<T: Tariff>(
    tariff: &T,
    claims: Claims<T::Amount>,
    values: &[T::Amount],
    policy: &[u16],
) -> u64
    ensures { result ≡ plan_told T.Tariff.row (T.scale tariff.now) claims values.now policy.now }
{
    let low = mix_amount(tariff, 0, claims.low);
    let high = mix_amount(tariff, low, claims.high);
    let valued = mix_values(tariff, high, values);
    mix_policy(valued, policy)
}

// A plan in lent tables: each is a slice, as the planner takes it.
fn plan_into<P: Plant, T: Tariff>(
    plant: &P,
    tariff: &T,
    sweeps: u32,
    values: &mut [T::Amount],
    working: &mut [T::Amount],
    policy: &mut [u16],
) -> Result<u64, Refusal>
    ensures { Plans T.Tariff.row (P.model plant.now) (T.scale tariff.now) sweeps
        (record { values = values.old; working = working.old; policy = policy.old })
        (record { values = values.new; working = working.new; policy = policy.new })
        result }
{
    let claims = plan(plant, tariff, sweeps, values, working, policy)?;
    Ok(tell_plan(tariff, claims, values, policy))
}

// A plan, in tables of its own: of fixed size, since no allocator stands at the C interface.
pub(crate) fn told_plan<P: Plant, T: Tariff>(
    plant: &P,
    tariff: &T,
    sweeps: u32,
) -> Result<u64, Refusal>
    requires { most_states * type_size T.Amount.row < 2 ^ 63 }
    ensures { PlanMade T.Tariff.row (P.model plant.now) (T.scale tariff.now) sweeps result }
{
    let states = plant.states();
    let mut values = [tariff.zero(); MOST_STATES];
    let mut working = [tariff.zero(); MOST_STATES];
    let mut policy = [0; MOST_STATES];
    // Slices first, then of each the entries in use: the answers have the length of a slice of amounts, not of the array.
    let values = &mut values[..];
    let working = &mut working[..];
    plan_into(
        plant,
        tariff,
        sweeps,
        &mut values[..states],
        &mut working[..states],
        &mut policy[..states],
    )
}
