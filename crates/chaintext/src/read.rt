// Reads a chain from the lines of a text.
ghost use Rattle.std.specs.Prelude.{◌≡◌};
ghost use Rattle.chain.specs.Parts.{LawfulNumbers};
ghost use Rattle.lines.specs.Line.{said};
ghost use Rattle.chaintext.specs.Answers.{ReadsChain, Replaced};
ghost use Rattle.chaintext.specs.Counted.{CountedChain, CountedReplaced, MadeOf, ReadsLines};
ghost use Rattle.chaintext.specs.Reads.{fresh, line_step, numbers_of, rule_for};
ghost use Rattle.chaintext.specs.Sample.{SampleBegins};
ghost use Rattle.chaintext.specs.Steps.{Took};
ghost use Rattle.chaintext.specs.Writing.{ReadsFrom, answered, answered_into};

use crate::reader::{ChainReader, Head, Stage};
use chain::limits::{MOST_ARCS, MOST_LIFE};
use chain::numbers::{ChainNumbers, Part};
use chain::plant::Chain;
use chain::refusal::ChainRefusal;
use lines::reading::{Line, Lines};
use reading::keys::Key;
use reading::rules::{ReadRefusal, Rule};
use workorder::{Arc, MAX_PARTS};

impl ChainReader {
    // Nothing is read yet.
    pub fn new() -> ChainReader
        ensures { result ≡ fresh }
    {
        let part = Part {
            life: 0,
            hazards: [0; MOST_LIFE],
            surplus: 0,
            dark: 0,
        };
        let arc = Arc::new(0, 0, 0);
        ChainReader {
            stage: Stage::Kind,
            head: Head {
                count: 0,
                threshold: 0,
                setup: 0,
                alarm: 0,
            },
            opened: 0,
            parts: [part; MAX_PARTS],
            arc_count: 0,
            arcs: [arc; MOST_ARCS],
        }
    }

    // What the next line does.
    fn take_line(&mut self, line: Line) -> Result<(), Rule>
        ensures { Took (line_step self.old (said line.entry)) self.old self.new result }
    {
        match line {
            Line::Pair(key, value) => self.step(Key::from(key), value),
            Line::Fault(number) => Err(Rule::from(number)),
        }
    }
}

// The numbers that were read.
impl From<&ChainReader> for ChainNumbers {
    ghost from_gives = { λ r n. n ≡ numbers_of r.now };

    fn from(reader: &ChainReader) -> ChainNumbers {
        ChainNumbers {
            count: reader.head.count,
            threshold: reader.head.threshold,
            setup: reader.head.setup,
            alarm: reader.head.alarm,
            parts: reader.parts,
            arc_count: reader.arc_count,
            arcs: reader.arcs,
        }
    }
}

// Why no chain is made, as a rule. No From: both types are of crates below.
fn rule_for(refusal: ChainRefusal) -> Rule
    ensures { result ≡ rule_for refusal }
{
    match refusal {
        ChainRefusal::OutOfRange => Rule::OutOfRange,
        ChainRefusal::TooManyStates => Rule::TooManyStates,
        ChainRefusal::NoFullRenewal => Rule::NoFullRenewal,
    }
}

// All that was read, and the number of lines.
#[derive(Clone, Copy)]
struct Complete {
    reader: ChainReader,
    line: usize,
}

// Reads the lines of a chain up to its end. A pair is read by the same loop: a trait for both readers would be longer.
fn read_lines(lines: &mut Lines) -> Result<Complete, ReadRefusal>
    ensures { ReadsLines lines.old.rest.now lines.old.place lines.new.rest.now lines.new.place result }
{
    let mut reader = ChainReader::new();
    loop {
        let read = lines.next_line();
        let line = read.place;
        // By hand: of a closure for map_err the check would ask its very form.
        if let Err(rule) = reader.take_line(read.line) {
            return Err(ReadRefusal { rule, line });
        }
        if reader.stage == Stage::Done {
            return Ok(Complete { reader, line });
        }
    }
}

// The chain that was read to its last line. Its numbers are in range, so only its states and the renewal of all parts are judged.
fn make_chain(complete: Complete) -> Result<Chain, ReadRefusal>
    requires { LawfulNumbers (numbers_of complete.reader) }
    ensures { MadeOf (numbers_of complete.reader) complete.line result }
{
    Chain::new(ChainNumbers::from(&complete.reader)).map_err(|refusal| ReadRefusal {
        rule: rule_for(refusal),
        line: complete.line,
    })
}

// Reads a chain: its lines, and then the making of it. The lines behind its end are left to be read.
pub fn read_chain(lines: &mut Lines) -> Result<Chain, ReadRefusal>
    ensures reads { ReadsChain lines.old.rest.now lines.old.place lines.new.rest.now result }
    ensures counts { CountedChain lines.old.rest.now lines.old.place lines.new.rest.now lines.new.place result }
    ensures law { ReadsFrom lines.old.rest.now (answered result) lines.new.rest.now }
    ensures sample { SampleBegins }
{
    let complete = read_lines(lines)?;
    make_chain(complete)
}

// Reads a chain into the place of another, which stays as it is where the text is refused.
pub fn read_chain_into(chain: &mut Chain, lines: &mut Lines) -> Result<(), ReadRefusal>
    ensures reads { Replaced chain.old chain.new lines.old.rest.now lines.old.place lines.new.rest.now result }
    ensures counts { CountedReplaced chain.old chain.new lines.old.rest.now lines.old.place lines.new.rest.now lines.new.place result }
    ensures law { ReadsFrom lines.old.rest.now (answered_into chain.new result) lines.new.rest.now }
{
    *chain = read_chain(lines)?;
    Ok(())
}
