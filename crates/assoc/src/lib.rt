// The pairing of boxes and tracks: the port of assoc.rs, over lent flat slices. A matrix is flat, row by row: a row for each detection, a cell for each track.
#![tactic(auto)]

mod association;
mod cost_matrix;
mod scene;

pub use assoc_assignment::{AssignmentCounts, linear_assignment};
pub use assoc_cost::AssociateParams;
pub use assoc_matching::{MatchCounts, match_detections};
pub use assoc_similarity::{
    iou_batch, mh_dist_similarity, mh_dist_similarity_over, shape_similarity_v1,
    shape_similarity_v2, soft_biou_batch,
};
pub use association::{associate, associate_within};
pub use refusals::Refusal;
