// The distances of boxes and tracks: get_mh_dist_matrix of boost_tracker.rs, over lent flat slices.
#![tactic(auto)]

mod mh_dist;
mod sizes;

pub use mh_dist::{det, get_mh_dist_matrix, sigma_inv};
