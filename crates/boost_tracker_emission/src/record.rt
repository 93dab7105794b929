// What the Rust's update emits of a track, as a track record: boost_tracker.rs, lines 365-382; and the record as it is written.
ghost use Rattle.std.specs.Prelude.{◌≡◌};
ghost use Rattle.boost_tracker_emission.specs.Record.{record_of, written};

use records::TrackRecord;
use strack::rect::Rect;
use strack::strack::KalmanBoxTracker;

#[tactic(auto, unfolding(crate::specs::Record::record_of))]
pub(crate) fn record_of(frame: u32, t: KalmanBoxTracker, label: u8) -> TrackRecord
    ensures { result ≡ record_of frame t label }
{
    let state = t.get_state();
    let rect = Rect::from_xyxy(state.x1, state.y1, state.x2, state.y2);
    TrackRecord {
        frame,
        id: t.id,
        left: rect.left,
        top: rect.top,
        width: rect.width,
        height: rect.height,
        confidence: t.get_confidence(0.9),
        label,
    }
}

// The record that is written of r: under the setting cap_confidence a confidence above 1 is 1, and a NaN is not above 1.
pub(crate) fn written(mut r: TrackRecord, cap: bool) -> TrackRecord
    ensures { result ≡ written cap r }
{
    if cap & (r.confidence > 1.0) {
        r.confidence = 1.0;
    }
    r
}
