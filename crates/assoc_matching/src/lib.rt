// Pairs of boxes and tracks from a matrix of costs: match_detections of assoc.rs, over lent flat slices. A matrix is flat, row by row: a row for each detection, a cell for each track.
#![tactic(auto)]

mod matching;

pub use assoc_direct::{Matrix, direct_columns, is_direct, put_pair, put_pairs};
pub use matching::{MatchCounts, lapjv_partners, match_detections};
