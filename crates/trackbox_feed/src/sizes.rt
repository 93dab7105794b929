// What trackbox lends: for 64 tracks and 64 boxes. Document 01, "Records and limits".
use boost_tracker_table::{PLACE_COUNTERS, PLACE_FLOATS};
use records::{BOX_VALUES, TRACK_BYTES};

pub const LENT_FLOATS: usize = 64 * PLACE_FLOATS;

pub const LENT_COUNTERS: usize = 64 * PLACE_COUNTERS;

// a byte a track
pub const LENT_LABELS: usize = 64;

pub const LENT_BOXES: usize = 64 * BOX_VALUES;
// a byte a box
pub const LENT_BOX_LABELS: usize = 64;

pub const LENT_OUTPUT: usize = 64 * TRACK_BYTES;
// n × n f64 and 4 × n × n f32, n the larger of both
pub const LENT_DOUBLES: usize = 64 * 64;

pub const LENT_SINGLES: usize = 4 * LENT_DOUBLES;
