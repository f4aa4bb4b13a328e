ghost use Rattle.std.specs.Prelude.{◌≡◌, ◌<◌, ◌↔◌, ℕ, List, IfNone, IfOk, IfSome, OnErr};
ghost use Rattle.std.specs.Option.{option_map};
ghost use Rattle.bookkeeping.specs.Standings.{book_of};
ghost use Rattle.planner.specs.RefusedAs.{IsRefused, RefusedAs};
ghost use Rattle.service.specs.Planning.{AllPromised, PlannedAs};
ghost use Rattle.service.specs.Services.{AsksCall, InService, Keeps, Serves, Turn, rows_of};

use crate::operator::Operator;
use bookkeeping::book::Open;
use bookkeeping::stage::Stage;
use bookkeeping::standing::{Answer, Call, Standing};
use certificate::finding::Finding;
use following::accept::accept;
use interface::plant::Plant;
use interface::tariff::Tariff;
use planner::plan::plan;
use planner::refusal::Refusal;

/// What a service came to.
#[derive(Drop)]
pub struct Served<A> {
    /// What the check found of the plan.
    pub finding: Finding<A>,
    /// The book as it stands, if one was made.
    pub book: Option<Standing>,
}

// The book that is made in the first state asked for that the plant has.
fn make_book<P: Plant, O: Operator>(plant: &P, operator: &mut O) -> Option<Standing>
    ensures served { (ps : List ℕ) → Serves (P.model plant.now) ps
        (O.turns operator.old) (O.turns operator.new)
        (option_map book_of result) }
    ensures shown { Keeps (O.was_shown operator.old) (O.was_shown operator.new) }
    ensures done { IfNone result (O.is_done operator.new) }
{
    loop {
        let state = operator.state()?;
        match Open::make(plant, state) {
            Ok(book) => {
                let book = Standing::Open(book);
                operator.tell(Answer::Next(Stage::Open), &book);
                return Some(book);
            }
            Err(why) => operator.not_made(why),
        }
    }
}

// The call that is asked for next at the book's stage.
fn next_call<'a, O: Operator>(
    book: &Standing,
    policy: &'a [u16],
    operator: &mut O,
) -> Option<Call<'a>>
    ensures asked { AsksCall (book_of book.now) policy.now result
        (O.turns operator.old) (O.turns operator.new) }
    ensures shown { Keeps (O.was_shown operator.old) (O.was_shown operator.new) }
    ensures fewer { IfSome result (λ _. O.left operator.new < O.left operator.old) }
    ensures done { IfNone result (O.is_done operator.new) }
{
    match book.stage() {
        Stage::Open => operator.order().then_some(Call::Issue(policy)),
        Stage::Issued => operator.carry_out().then_some(Call::CarryOut),
        Stage::OnAir => match operator.outcome() {
            Some(outcome) => Some(Call::Report(outcome)),
            None => None,
        },
    }
}

// The book after all calls that an operator asks for.
fn attend<P: Plant, O: Operator>(
    plant: &P,
    policy: &[u16],
    made: Standing,
    operator: &mut O,
) -> Standing
    ensures served { (from : List Turn)
        → InService (P.model plant.now) policy.now from (O.turns operator.old) (book_of made)
        → InService (P.model plant.now) policy.now from (O.turns operator.new) (book_of result) }
    ensures shown { Keeps (O.was_shown operator.old) (O.was_shown operator.new) }
    ensures done { O.is_done operator.new }
{
    let mut book = made;
    loop {
        let Some(call) = next_call(&book, policy, operator) else {
            return book;
        };
        let (next, answer) = book.call(plant, &call);
        book = next;
        operator.tell(answer.unwrap(), &book);
    }
}

// A book where one is asked for, after all calls that are.
fn keep_book<P: Plant, O: Operator>(plant: &P, policy: &[u16], operator: &mut O) -> Option<Standing>
    ensures served { Serves (P.model plant.now) policy.now
        (O.turns operator.old) (O.turns operator.new)
        (option_map book_of result) }
    ensures shown { Keeps (O.was_shown operator.old) (O.was_shown operator.new) }
    ensures done { O.is_done operator.new }
{
    let Some(made) = make_book(plant, operator) else {
        return None;
    };
    Some(attend(plant, policy, made, operator))
}

/// Plans, has the plan checked, shows the operator what was found, makes a book where it is asked
/// for, and follows the plan's policy for as long as the operator asks for the next call. Refused
/// as the planner refuses, before anything is asked.
pub fn serve<P: Plant, T: Tariff, O: Operator>(
    plant: &P,
    tariff: &T,
    sweeps: u32,
    values: &mut [T::Amount],
    working: &mut [T::Amount],
    policy: &mut [u16],
    operator: &mut O,
) -> Result<Served<T::Amount>, Refusal>
    // the plan, or why there is none, and what the three tables hold then
    ensures planned { PlannedAs T.Tariff.row (P.model plant.now) (T.scale tariff.now) sweeps
        (record { values = values.old; working = working.old; policy = policy.old })
        (record { values = values.new; working = working.new; policy = policy.new })
        result }
    // refused by a rule at a place exactly when that rule is broken there
    ensures refused { (n p : ℕ) → IsRefused result n p
        ↔ RefusedAs (P.model plant.now) (T.scale tariff.now) sweeps
        (record { values = values.old; working = working.old; policy = policy.old }) n p }
    // without a plan nothing passes between the two
    ensures not_planned { OnErr result (O.turns operator.new ≡ O.turns operator.old) }
    // the finding was shown, and the service went on until the operator had nothing more to ask
    ensures shown { IfOk result (λ s. O.was_shown operator.new (rows_of T.Tariff.row s.finding)) }
    ensures done { IfOk result (λ _. O.is_done operator.new) }
    // the cost bound, the exactness of the claims, and the whole past of the book
    ensures promised { IfOk result
        (AllPromised T.Tariff.row (P.model plant.now) (T.scale tariff.now)
        (record { values = values.new; working = working.new; policy = policy.new })
        (O.turns operator.old) (O.turns operator.new)) }
{
    let claims = plan(plant, tariff, sweeps, values, working, policy)?;
    let finding = accept(plant, tariff, values, policy, claims).unwrap();
    operator.found(tariff, &finding);
    let book = keep_book(plant, policy, operator);
    Ok(Served { finding, book })
}
