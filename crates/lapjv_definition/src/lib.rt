// The types that the definition of the assignment and its code share. The definition is in specs/, its theorems in proofs/: there is no code here.
#![tactic(auto)]

// The row turns and column scans of a call.
#[derive(Clone, Copy, Debug, PartialEq, Eq)]
pub struct Counts {
    pub turns: usize,
    pub scans: usize,
}

// The columns and the values of a row's least reduced cost and of the next one.
#[derive(Drop)]
pub struct Two {
    pub j1: usize,
    pub j2: usize,
    pub v1: f64,
    pub v2: f64,
}

// The column that a row takes, and whether the row that had it has the next turn.
// Kept: a row takes a column either way, so two variants with the same value in them would be no plainer than the flag.
#[derive(Drop)]
pub struct Pick {
    pub j: usize,
    pub retry: bool,
}
