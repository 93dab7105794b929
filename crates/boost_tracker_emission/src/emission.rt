// The tracks that a frame puts out: boost_tracker.rs, lines 363-383, as records in table order.
ghost use Rattle.std.specs.Prelude.{◌≡◌, ◌/◌, min, length};
ghost use Rattle.records.specs.TrackRecord.{track_bytes};
ghost use Rattle.boost_tracker_table.specs.Table.{tracks};
ghost use Rattle.boost_tracker_emission.specs.Emission.{emits, Emitted};

use crate::record::{record_of, written};
use boost_tracker_table::{load, placed};
use labels::label_at;
use records::{TRACK_BYTES, write_track};
use strack::strack::KalmanBoxTracker;

// `hits` is the setting min_hits, `frame` the frame's number, the Rust's frame_count.
fn emits(t: KalmanBoxTracker, frame: u32, hits: u64) -> bool
    ensures { result ≡ emits frame hits t }
{
    (t.since < 1) & ((t.streak >= hits) | (frame as u64 <= hits))
}

// The records of the held tracks that are put out. How many there are. Looks at as many tracks as `out` has room for. `cap` is the setting cap_confidence.
pub fn emit(
    floats: &[f32],
    counters: &[u64],
    labels: &[u8],
    held: usize,
    frame: u32,
    hits: u64,
    cap: bool,
    out: &mut [u8],
) -> usize
    ensures { Emitted (tracks floats.now counters.now (min held (length out.old / track_bytes))) labels.now frame hits cap out.old out.new result }
{
    let looked = held.min(out.len() / TRACK_BYTES);
    let n = placed(floats.len(), counters.len(), looked);
    let mut w = 0;
    for i in 0..n {
        let t = load(floats, counters, looked, i);
        if emits(t, frame, hits) {
            // There is room, since no more are written than are looked at: it is never None.
            let _ = write_track(
                written(record_of(frame, t, label_at(labels, i)), cap),
                w,
                out,
            );
            w += 1;
        }
    }
    w
}
