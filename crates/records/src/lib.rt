// Box records and track records: document 01, "Records and limits". Fixed numbers of bytes, read from and written to lent slices.
#![tactic(auto)]

mod box_record;
mod field;
mod record;
mod track_record;

pub use box_record::{BOX_BYTES, BOX_VALUES, BoxRecord, read_box, write_box};
pub use field::{bits, put_bytes};
pub use track_record::{TRACK_BYTES, TrackRecord, read_track, write_track};
