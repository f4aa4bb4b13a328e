// A pair's text, read line by line.
ghost use Rattle.std.specs.Prelude.{◌≡◌, true};
ghost use Rattle.pairtext.specs.Sample.{SampleRead};
ghost use Rattle.pairtext.specs.Sound.{Sound};
ghost use Rattle.pairtext.specs.Texts.{complete, numbers_read, judged, read_pair, answered, done, PlantAfter};
ghost use Rattle.pairtext.specs.Writing.{ReadsPair};

use crate::reader::PairReader;
use crate::stage::Stage;
use lines::reading::Lines;
use pair::numbers::PairNumbers;
use pair::plant::Pair;
use reading::rules::{ReadRefusal, Rule};

// The numbers that were read.
impl From<&PairReader> for PairNumbers {
    ghost from_gives = { λ r n. n ≡ numbers_read r.now };

    fn from(reader: &PairReader) -> PairNumbers {
        PairNumbers {
            threshold: reader.threshold,
            setup: reader.setup,
            inspect: reader.inspect,
            one: reader.units[0],
            two: reader.units[1],
        }
    }
}

impl PairReader {
    fn is_complete(&self) -> bool
        ensures { result ≡ complete self.now.stage }
    {
        self.stage == Stage::Complete
    }

    // The pair that was read to its last line. Its numbers are in range, so only the renewal of both units is judged.
    fn close(&self, line: usize) -> Result<Pair, ReadRefusal>
        requires { Sound self.now × (complete self.now.stage ≡ true) }
        ensures { answered result ≡ judged (numbers_read self.now) line }
    {
        Pair::new(PairNumbers::from(self)).map_err(|_| ReadRefusal {
            rule: Rule::NoFullRenewal,
            line,
        })
    }
}

// Reads a pair up to its last line, or to the first line that is refused. A chain is read by the same loop: a trait for
// both readers would be longer than it.
pub fn read_pair(lines: &mut Lines) -> Result<Pair, ReadRefusal>
    ensures answer { answered result ≡ (read_pair lines.old.rest.now lines.old.place).answer }
    ensures rest { lines.new.rest.now ≡ (read_pair lines.old.rest.now lines.old.place).rest }
    ensures place { lines.new.place ≡ (read_pair lines.old.rest.now lines.old.place).place }
    ensures law { ReadsPair lines.old.rest.now (answered result) lines.new.rest.now }
    ensures sample { SampleRead }
{
    let mut reader = PairReader::new();
    loop {
        let read = lines.next_line();
        let line = read.place;
        reader
            .step(read.line)
            .map_err(|rule| ReadRefusal { rule, line })?;
        if reader.is_complete() {
            return reader.close(line);
        }
    }
}

// Reads a pair into `plant`; a refused text leaves it as it was.
pub fn read_pair_into(plant: &mut Pair, lines: &mut Lines) -> Result<(), ReadRefusal>
    ensures answer { result ≡ done (read_pair lines.old.rest.now lines.old.place).answer }
    ensures plant { PlantAfter (read_pair lines.old.rest.now lines.old.place).answer plant.old plant.new }
    ensures rest { lines.new.rest.now ≡ (read_pair lines.old.rest.now lines.old.place).rest }
    ensures place { lines.new.place ≡ (read_pair lines.old.rest.now lines.old.place).place }
    ensures law { ReadsPair lines.old.rest.now (read_pair lines.old.rest.now lines.old.place).answer lines.new.rest.now }
{
    let read = read_pair(lines)?;
    *plant = read;
    Ok(())
}
