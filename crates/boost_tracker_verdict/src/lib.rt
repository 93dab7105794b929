// What turns a frame down: the verdict on its table, its settings, its boxes and its room.
#![tactic(auto)]

mod bad_boxes;
mod refusal;
pub mod sound;
mod verdict;
mod workable;

pub use refusal::Refusal;
pub use sound::State;
pub use verdict::frame_verdict;
