// Numbers as text, and the printed lines: document 01, "Records and limits", over lent bytes.
#![tactic(auto)]

mod line;
mod text;

pub use line::{LINE_BYTES, write_line, write_refused};
pub use text::write_decimal;
