#![tactic(auto)]

// The filter as four pairs: the port of kalman_filter.rs, with every struct passed and returned by value.
pub mod kalman_filter;
