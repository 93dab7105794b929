// The pairs that stand, and what is left of the boxes and tracks: linear_assignment of assoc.rs, over lent flat slices. A matrix is flat, row by row: a row for each detection, a cell for each track.
#![tactic(auto)]

mod assignment;

pub use assignment::{AssignmentCounts, Room, assignment_verdict, linear_assignment};
