ghost use Rattle.std.specs.Prelude.{◌≡◌, ◌≤◌, true};
ghost use Rattle.planner.specs.Sweeps.{most_sweeps};
ghost use Rattle.request.specs.Writing.{RateInRange};
ghost use Rattle.reply.specs.Laws.{Tail, SomeRequest, ReplyLaw};
ghost use Rattle.reply.specs.Replies.{PlansAs, BehindPlant, RepliesTo, scale_of};
ghost use Rattle.desk.specs.Opening.{Opened, Followed, FollowedBehind, FollowedText};

use crate::desk::Desk;
use crate::terminal::Terminal;
use chaintext::read::read_chain;
use interface::plant::Plant;
use interface::tariff::Tariff;
use lines::reading::Lines;
use pairtext::text::read_pair;
use reply::answer::{Refusal, Unanswered};
use request::ending::read_end;
use request::kind::{Kind, kind_of};
use request::sweeps::{SweepsLine, read_sweeps};
use request::tariff::{TariffChoice, read_tariff};
use service::serve::serve;
use std::alloc::Global;
use tariffs::air_first::AirFirst;
use tariffs::priced::Priced;

// Plans in tables of its own, and follows the plan at the terminal.
fn follow_with<P: Plant, T: Tariff, L: Terminal + Drop>(
    heap: Global,
    plant: &P,
    tariff: &T,
    sweeps: SweepsLine,
    terminal: L,
) -> Result<Desk<L>, Unanswered>
    requires { sweeps.count ≤ most_sweeps }
    ensures { Opened (PlansAs (P.model plant.now) (T.scale tariff.now) sweeps) (Unit {0})
        (λ desk. Followed (P.model plant.now) (T.scale tariff.now) sweeps.count
        desk.talk.items × (L.ended desk.terminal ≡ true)) result }
{
    let states = plant.states();
    let mut values = vec![in heap; tariff.zero(); states]?;
    let mut working = vec![in heap; tariff.zero(); states]?;
    let mut policy = vec![in heap; 0; states]?;
    let mut desk = Desk::new(terminal);
    let served = serve(
        plant,
        tariff,
        sweeps.count,
        &mut values,
        &mut working,
        &mut policy,
        &mut desk,
    );
    match served {
        Ok(_) => Ok(desk),
        // The sweeps are few and the tables long enough: a value beyond reach is all that is
        // refused here.
        Err(_) => Err(Unanswered::Refused(Refusal::BeyondReach(sweeps.line))),
    }
}

// The same under the tariff that the request names.
fn follow_under<P: Plant, L: Terminal + Drop>(
    heap: Global,
    plant: &P,
    tariff: TariffChoice,
    sweeps: SweepsLine,
    terminal: L,
) -> Result<Desk<L>, Unanswered>
    requires rate { RateInRange tariff }
    requires few { sweeps.count ≤ most_sweeps }
    ensures { Opened (PlansAs (P.model plant.now) (scale_of tariff) sweeps) (Unit {0})
        (λ desk. Followed (P.model plant.now) (scale_of tariff) sweeps.count
        desk.talk.items × (L.ended desk.terminal ≡ true)) result }
{
    match tariff {
        TariffChoice::Priced(rate) => follow_with(
            heap,
            plant,
            &Priced::new(rate).unwrap(),
            sweeps,
            terminal,
        ),
        TariffChoice::AirFirst => follow_with(heap, plant, &AirFirst, sweeps, terminal),
    }
}

// Reads what stands behind the plant, and follows its plan.
fn follow_behind<P: Plant, L: Terminal + Drop>(
    heap: Global,
    plant: &P,
    lines: &mut Lines,
    terminal: L,
) -> Result<Desk<L>, Unanswered>
    ensures { Opened (BehindPlant (P.model plant.now) lines.old.rest.now lines.old.place)
        (Tail lines.old.rest.now)
        (λ desk. FollowedBehind (P.model plant.now) lines.old.rest.now
        desk.talk.items × (L.ended desk.terminal ≡ true)) result }
{
    let tariff = read_tariff(lines)?;
    let sweeps = read_sweeps(lines)?;
    read_end(lines)?;
    follow_under(heap, plant, tariff, sweeps, terminal)
}

fn follow_by_kind<L: Terminal + Drop>(
    heap: Global,
    text: &[u8],
    terminal: L,
) -> Result<Desk<L>, Unanswered>
    ensures { Opened (RepliesTo text.now) (SomeRequest text.now)
        (λ desk. FollowedText text.now desk.talk.items
        × (L.ended desk.terminal ≡ true)) result }
{
    let kind = kind_of(text)?;
    let mut lines = Lines::new(text);
    match kind {
        Kind::Chain => {
            let chain = read_chain(&mut lines)?;
            follow_behind(heap, &chain, &mut lines, terminal)
        }
        Kind::Pair => {
            let pair = read_pair(&mut lines)?;
            follow_behind(heap, &pair, &mut lines, terminal)
        }
    }
}

/// Plans as a request asks, and follows the plan at a terminal until nothing more is heard there.
/// Refused as the request is by the reply to it, with nothing heard or said. Want of memory is
/// answered to requests only.
pub fn follow<L: Terminal + Drop>(
    heap: Global,
    text: &[u8],
    terminal: L,
) -> Result<Desk<L>, Unanswered>
    ensures reply { Opened (RepliesTo text.now) (SomeRequest text.now)
        (λ desk. FollowedText text.now desk.talk.items
        × (L.ended desk.terminal ≡ true)) result }
    ensures law { Opened (ReplyLaw text.now) (SomeRequest text.now)
        (λ desk. FollowedText text.now desk.talk.items
        × (L.ended desk.terminal ≡ true)) result }
{
    follow_by_kind(heap, text, terminal)
}
