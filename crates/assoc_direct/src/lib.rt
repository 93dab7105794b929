// The direct path of match_detections of assoc.rs: where no row and no column of the costs has more than one above the threshold, these are the pairs.
#![tactic(auto)]

mod direct;
mod matrix;
mod pairs;

pub use direct::{direct_columns, direct_pairs, is_direct, put_pair};
pub use matrix::Matrix;
pub use pairs::put_pairs;
