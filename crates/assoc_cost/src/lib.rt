// The cost of a box and a track: a cell of the matrix by which associate of assoc.rs pairs.
#![tactic(auto)]

mod cost;

pub use cost::{AssociateParams, cost_cell};
