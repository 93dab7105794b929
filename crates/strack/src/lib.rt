#![tactic(auto)]

// Boxes and a track: the port of rect.rs, object.rs and strack.rs, a module each, with every struct passed and returned by value.
pub mod object;
pub mod rect;
pub mod strack;
