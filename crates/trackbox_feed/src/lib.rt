// What trackbox does with one record after another, over lent memory: the frames that come before a record are worked, and their lines are the text of each call. Document 01, "trackbox".
#![tactic(auto)]

mod feed;
mod frame;
mod lines;
mod sizes;

pub use feed::{Fed, Feed, Item, start, take};
pub use frame::settings;
pub use sizes::{
    LENT_BOX_LABELS, LENT_BOXES, LENT_COUNTERS, LENT_DOUBLES, LENT_FLOATS, LENT_LABELS,
    LENT_OUTPUT, LENT_SINGLES,
};
