/// What arithmetic comes to.
#[derive(Clone, Copy, Debug, PartialEq, Eq)]
pub enum Computed {
    Number(i64),
    /// The result, or one on the way to it, is no number of 64 bits.
    OutOfRange,
    ZeroDivisor,
    /// The quotient is not whole.
    Inexact,
}
