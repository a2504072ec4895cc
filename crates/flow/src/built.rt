// An expression that was compiled.
use algebra::Expr;

#[derive(Drop)]
pub(crate) struct Built {
    pub(crate) expr: Expr,
    // Where its text ends in the file: at most 16,384.
    pub(crate) end: usize,
    // The number that the next leaf has: at most 64.
    pub(crate) next: u8,
}
