// The matrices of assoc.rs, over lent flat slices: a row for each detection, a cell for each track.
#![tactic(auto)]

mod batch;
mod corners;

pub use assoc_mahalanobis::{mh_dist_similarity, mh_dist_similarity_over};
pub use batch::{
    confidence_at, iou_batch, shape_similarity_v1, shape_similarity_v2, soft_biou_batch,
};
pub use corners::box_at;
