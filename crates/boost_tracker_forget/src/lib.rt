// Forget one track or a set of them, over the lent table: document 02, N11.
#![tactic(auto)]

mod drops;
mod ids;
mod refusal;

pub use drops::{Forgotten, forget, forget_set};
pub use refusal::ForgetRefusal;
