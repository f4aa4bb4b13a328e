// What a certificate claims of gains: that of no feasible portfolio is below low, and none of its own policy's is above high.
#[derive(Clone, Copy, PartialEq, Eq, Debug)]
pub struct Claims<A> {
    pub low: A,
    pub high: A,
}
