// The least work order of every portfolio of parts.
//
// Parts are numbered from 1, and node 0 is the rack door. A portfolio is a set of parts, by a number in which part i
// counts 2^(i - 1). A work order does every part of a portfolio exactly once, one after another. It comes to each by
// an arc, which starts at the door or at a part that is done by then, and costs what its arcs cost together.
#![tactic(auto)]

ghost use Rattle.std.specs.Prelude.{◌≡◌, ℕ, ◌*◌, ◌^◌, ◌<◌, min, [], ◌∷◌, set, replicate, Some, None, Decides, Option, slice_index_or, slice_set};
ghost use Rattle.workorder.specs.Figures.{Figures, arc as the_arc, circle as the_circle, closed as the_closed, row as the_row};
ghost use Rattle.workorder.specs.Orders.{AtMost, Holds, Least, LeastOf, LeastTable, NoneDearer, max_parts, portfolios};
ghost use Rattle.workorder.specs.Steps.{ArcFor, EndsWith, RightBelow, Usable, sum as the_sum, without as the_rest};

// The largest number of parts.
pub const MAX_PARTS: usize = 6;

// The number of portfolios of so many parts.
pub const PORTFOLIOS: usize = 1 << MAX_PARTS;

// A way to a part, from the door or from another part.
#[derive(Clone, Copy)]
pub struct Arc {
    pub from: usize,
    pub to: usize,
    pub cents: u32,
}

impl Arc {
    pub fn new(from: usize, to: usize, cents: u32) -> Self
        ensures { result ≡ the_arc from to cents }
    {
        Arc { from, to, cents }
    }
}

// Whether the portfolio holds the part.
pub fn holds(portfolio: usize, part: usize) -> bool
    ensures { Decides result (Holds portfolio part) }
{
    (1..=usize::BITS as usize).contains(&part) && (portfolio >> (part - 1)) % 2 == 1
}

// The lesser of two numbers.
fn lesser(a: u64, b: u64) -> u64
    ensures { result ≡ min a b }
{
    a.min(b)
}

// The arc's cents, where it leads to the part from the door or from a part of the portfolio done.
fn usable_cents(arc: Arc, done: usize, part: usize) -> Option<u64>
    ensures cents { Usable done part arc result }
    ensures small { AtMost (2 ^ 32) result }
{
    (arc.to == part && (arc.from == 0 || holds(done, arc.from))).then_some(u64::from(arc.cents))
}

// The cents of the cheapest arc to the part from the door or from a part of the portfolio done.
fn cheapest_arc(arcs: &[Arc], done: usize, part: usize) -> Option<u64>
    ensures least { LeastOf (ArcFor arcs.now done part) result }
    ensures small { AtMost (2 ^ 32) result }
{
    arcs.iter()
        .filter_map(|arc| usable_cents(*arc, done, part))
        .reduce(lesser)
}

// The portfolio without a part that it holds.
fn without(portfolio: usize, part: usize) -> usize
    requires { Holds portfolio part }
    ensures { result ≡ the_rest portfolio part }
{
    portfolio - (1 << (part - 1))
}

// The sum of two numbers, absent where one of them is.
fn sum(a: Option<u64>, b: Option<u64>) -> Option<u64>
    requires { (AtMost (2 ^ 62) a) × (AtMost (2 ^ 62) b) }
    ensures { result ≡ the_sum a b }
{
    Some(a? + b?)
}

// The least cents of the work orders for the portfolio that end with the part: the part comes after a work order for
// the portfolio without it, whose least cents the table has.
fn ending_with(
    arcs: &[Arc],
    table: &[Option<u64>; PORTFOLIOS],
    portfolio: usize,
    part: usize,
) -> Option<u64>
    requires in_range { portfolio < portfolios }
    requires right { RightBelow arcs.now portfolio table.now }
    ensures least { LeastOf (EndsWith arcs.now portfolio part) result }
    ensures small { AtMost (portfolio * 2 ^ 32) result }
{
    if !holds(portfolio, part) {
        return None;
    }
    let done = without(portfolio, part);
    sum(table[done], cheapest_arc(arcs, done, part))
}

// The least cents of the work orders for a portfolio with some part, over each part that may come last.
fn least_for(arcs: &[Arc], table: &[Option<u64>; PORTFOLIOS], portfolio: usize) -> Option<u64>
    requires in_range { (0 < portfolio) × (portfolio < portfolios) }
    requires right { RightBelow arcs.now portfolio table.now }
    ensures least { Least arcs.now portfolio result }
    ensures small { AtMost (portfolio * 2 ^ 32) result }
{
    (1..=MAX_PARTS)
        .filter_map(|part| ending_with(arcs, table, portfolio, part))
        .reduce(lesser)
}

// The table to begin with: the portfolio of no parts costs nothing, and no other is known.
fn first_table() -> [Option<u64>; PORTFOLIOS]
    ensures { result ≡ slice_set (replicate portfolios None) 0 (Some 0) }
{
    let mut table = [None; PORTFOLIOS];
    table[0] = Some(0);
    table
}

// The least cents of a work order for each portfolio, absent exactly where the portfolio has no work order.
// The second clause says that no other answer is right, and the third bounds it by the dearest arc.
pub fn least_work_orders(arcs: &[Arc]) -> [Option<u64>; PORTFOLIOS]
    ensures table { LeastTable arcs.now result }
    ensures only { (x : ℕ) (s : Option ℕ) → x < portfolios → Least arcs.now x s → s ≡ slice_index_or result x None }
    ensures bounded { (x m : ℕ) → x < portfolios → NoneDearer m arcs.now → AtMost (max_parts * m) (slice_index_or result x None) }
{
    let mut table = first_table();
    // By number: an entry could not be lent while the whole table is read for it.
    for portfolio in 1..PORTFOLIOS {
        let least = least_for(arcs, &table, portfolio);
        table[portfolio] = least;
    }
    table
}

// Either of parts 1 and 2 can be done after the other for 1, but one of them is done first, from the door for 10.
fn circle() -> [Arc; 4]
    ensures { result ≡ the_circle }
{
    [
        Arc::new(0, 1, 10),
        Arc::new(0, 2, 10),
        Arc::new(1, 2, 1),
        Arc::new(2, 1, 1),
    ]
}

// Part 2 is cheaper after part 1 than from the door.
fn row() -> [Arc; 3]
    ensures { result ≡ the_row }
{
    [
        Arc::new(0, 1, 364),
        Arc::new(0, 2, 828),
        Arc::new(1, 2, 527),
    ]
}

// No part can be done first.
fn closed() -> [Arc; 2]
    ensures { result ≡ the_closed }
{
    [Arc::new(1, 2, 1), Arc::new(2, 1, 1)]
}

// The least cents of parts 1 and 2 together, by the arcs of each example.
pub fn worked_examples() -> [Option<u64>; 3]
    ensures figures { Figures }
    ensures found { result ≡ Some 11 ∷ Some 891 ∷ None ∷ [] }
{
    let both = 3;
    let in_circle = least_work_orders(&circle());
    let in_row = least_work_orders(&row());
    let in_closed = least_work_orders(&closed());
    [in_circle[both], in_row[both], in_closed[both]]
}
