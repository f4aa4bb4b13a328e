// What a program in another language calls. Each call answers 0 and writes its number, or answers the number of the
// refusal and writes nothing.
ghost use Rattle.std.specs.Prelude.{◌≡◌, ℕ, Result};
ghost use Rattle.bench.specs.Exports.{ChainIn, AsksChain, BooksChain, AsksPair, PlansPriced, PlansAirFirst, Told};
ghost use Rattle.bench.specs.Refusals.{numbered};

use crate::asking::ask_rounds;
use crate::booking::told_book;
use crate::planning::told_plan;
use crate::refusal::Refused;
use chain::plant::Chain;
use chaintext::read::read_chain;
use lines::reading::Lines;
use pairtext::text::read_pair;
use reading::rules::ReadRefusal;
use tariffs::air_first::AirFirst;
use tariffs::priced::Priced;

// The answer to a call that was not refused.
const DONE: u32 = 0;

// The chain that the text describes.
fn chain_in(text: &[u8]) -> Result<Chain, ReadRefusal>
    ensures { ChainIn text.now result }
{
    read_chain(&mut Lines::new(text))
}

// It and ask_pair are one line each: ask_rounds is what they share.
fn ask_chain(text: &[u8], rounds: u32) -> Result<u64, Refused>
    ensures { AsksChain text.now rounds (numbered result) }
{
    Ok(ask_rounds(&chain_in(text)?, rounds))
}

fn ask_pair(text: &[u8], rounds: u32) -> Result<u64, Refused>
    ensures { AsksPair text.now rounds (numbered result) }
{
    let pair = read_pair(&mut Lines::new(text))?;
    Ok(ask_rounds(&pair, rounds))
}

fn priced_plan(text: &[u8], rate: u32, sweeps: u32) -> Result<u64, Refused>
    ensures { PlansPriced text.now rate sweeps (numbered result) }
{
    let chain = chain_in(text)?;
    let tariff = Priced::new(rate)?;
    Ok(told_plan(&chain, &tariff, sweeps)?)
}

fn air_first_plan(text: &[u8], sweeps: u32) -> Result<u64, Refused>
    ensures { PlansAirFirst text.now sweeps (numbered result) }
{
    let chain = chain_in(text)?;
    Ok(told_plan(&chain, &AirFirst, sweeps)?)
}

fn chain_book(text: &[u8], windows: u32) -> Result<u64, Refused>
    ensures { BooksChain text.now windows (numbered result) }
{
    Ok(told_book(&chain_in(text)?, windows)?)
}

// The refusal becomes its number here, at the edge of the C interface.
fn tell(found: Result<u64, Refused>, answer: &mut u64) -> u32
    ensures { Told (numbered found) answer.old answer.new result }
{
    match found {
        Ok(number) => {
            *answer = number;
            DONE
        }
        Err(refused) => refused.number(),
    }
}

// Every question of the chain in the text, asked so many times.
#[unsafe(no_mangle)]
pub extern "C" fn nensuya_ask_chain(text: &[u8], rounds: u32, answer: &mut u64) -> u32
    ensures { (f : Result ℕ ℕ) × AsksChain text.now rounds f × Told f answer.old answer.new result }
{
    tell(ask_chain(text, rounds), answer)
}

// Every question of the pair in the text, asked so many times.
#[unsafe(no_mangle)]
pub extern "C" fn nensuya_ask_pair(text: &[u8], rounds: u32, answer: &mut u64) -> u32
    ensures { (f : Result ℕ ℕ) × AsksPair text.now rounds f × Told f answer.old answer.new result }
{
    tell(ask_pair(text, rounds), answer)
}

// A plan of the chain in the text under the priced tariff.
#[unsafe(no_mangle)]
pub extern "C" fn nensuya_plan_priced(text: &[u8], rate: u32, sweeps: u32, answer: &mut u64) -> u32
    ensures { (f : Result ℕ ℕ) ×
        PlansPriced text.now rate sweeps f × Told f answer.old answer.new result }
{
    tell(priced_plan(text, rate, sweeps), answer)
}

// A plan of the chain in the text under the air-first tariff.
#[unsafe(no_mangle)]
pub extern "C" fn nensuya_plan_air_first(text: &[u8], sweeps: u32, answer: &mut u64) -> u32
    ensures { (f : Result ℕ ℕ) ×
        PlansAirFirst text.now sweeps f × Told f answer.old answer.new result }
{
    tell(air_first_plan(text, sweeps), answer)
}

// So many windows of a book of the chain in the text, in which everything is renewed each time.
#[unsafe(no_mangle)]
pub extern "C" fn nensuya_book_chain(text: &[u8], windows: u32, answer: &mut u64) -> u32
    ensures { (f : Result ℕ ℕ) ×
        BooksChain text.now windows f × Told f answer.old answer.new result }
{
    tell(chain_book(text, windows), answer)
}
