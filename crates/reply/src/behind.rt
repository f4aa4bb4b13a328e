// What stands behind the plant in a request, and the reply to it.
ghost use Rattle.request.specs.Writing.{RateInRange};
ghost use Rattle.reply.specs.Laws.{Tail};
ghost use Rattle.reply.specs.Replies.{Answered, PlansAs, scale_of, BehindPlant};

use crate::answer::Unanswered;
use crate::planning::reply_with;
use crate::sweeps::Sweeps;
use interface::plant::Plant;
use lines::reading::Lines;
use request::ending::read_end;
use request::sweeps::read_sweeps;
use request::tariff::{TariffChoice, read_tariff};
use std::alloc::Global;
use tariffs::air_first::AirFirst;
use tariffs::priced::Priced;

// The reply under the tariff that the request names.
fn reply_under<P: Plant>(
    heap: Global,
    plant: &P,
    tariff: TariffChoice,
    sweeps: Sweeps,
) -> Result<Vec<u8>, Unanswered>
    requires { RateInRange tariff }
    ensures { Answered (PlansAs (P.model plant.now) (scale_of tariff) sweeps.named) (Unit {0}) result }
{
    match tariff {
        TariffChoice::Priced(rate) => {
            reply_with(heap, plant, &Priced::new(rate).unwrap(), sweeps)
        }
        TariffChoice::AirFirst => reply_with(heap, plant, &AirFirst, sweeps),
    }
}

// Reads what follows the plant, and replies. Memory can be wanting only where that is as it should be.
pub(crate) fn reply_behind<P: Plant>(
    heap: Global,
    plant: &P,
    lines: &mut Lines,
) -> Result<Vec<u8>, Unanswered>
    ensures { Answered (BehindPlant (P.model plant.now) lines.old.rest.now lines.old.place) (Tail lines.old.rest.now) result }
{
    let tariff = read_tariff(lines)?;
    let named = read_sweeps(lines)?;
    read_end(lines)?;
    reply_under(heap, plant, tariff, Sweeps { named })
}
