// The chain of one part with two ages, and its tariff.
use anyhow::bail;
use chain::plant::Chain;
use chaintext::read::read_chain;
use lines::reading::Lines;
use tariffs::priced::Priced;

const TEXT: &[u8] = b"kind=chain
parts=1
threshold=5000
setup=100
alarm=0
part=1
life=2
hazard=1000,4000
surplus=500
dark=60
arc=0,1,200
end=plant
";

const RATE: u32 = 10;

// How often the values of the plan are swept.
pub(crate) const SWEEPS: u32 = 2;

pub(crate) fn chain() -> anyhow::Result<Chain> {
    let mut lines = Lines::new(TEXT);
    let Ok(chain) = read_chain(&mut lines) else {
        bail!("the text makes no chain");
    };
    Ok(chain)
}

pub(crate) fn tariff() -> anyhow::Result<Priced> {
    let Ok(tariff) = Priced::new(RATE) else {
        bail!("the rate makes no tariff");
    };
    Ok(tariff)
}
