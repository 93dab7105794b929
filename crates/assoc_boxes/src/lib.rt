// Two boxes: what they have in common, and how alike their shapes are. The cells of assoc.rs's matrices.
#![tactic(auto)]

pub mod overlap;
pub mod shape;
