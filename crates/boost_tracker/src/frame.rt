// A frame: its steps 1 to 7, and where it is accepted step 8, the output and the tracks that are retained.
ghost use Rattle.std.specs.Prelude.{◌≡◌, ◌/◌, length, Err};
ghost use Rattle.records.specs.TrackRecord.{track_bytes};
ghost use Rattle.boost_tracker_table.specs.Table.{places_in};
ghost use Rattle.boost_tracker_table.specs.Lent.{call_with};
ghost use Rattle.boost_tracker_verdict.specs.Boxes.{boxes_with};
ghost use Rattle.boost_tracker.specs.Private.{FinishRoom, ending_with, finished};
ghost use Rattle.boost_tracker.specs.Frame.{refused_answer, memory_with, updated};

use boost_tracker_settings::Settings;
use boost_tracker_steps::{Advanced, advance};
use boost_tracker_verdict::{Refusal, State};

// The state is the new one, or the one given where the frame is refused; the counts are 0 there.
// Kept: WholeOrTurnedDown of specs/Whole.antt speaks of the state and the counts beside a refusal too, and bedside_update hands them out.
#[derive(Clone, Copy)]
pub struct UpdateAnswer {
    pub verdict: Result<(), Refusal>,
    pub state: State,
    // track records written to the output
    pub emitted: usize,
    pub turns: usize,
    pub scans: usize,
}

// Step 8 of an accepted frame.
fn finish(
    settings: Settings,
    state: State,
    advanced: Advanced,
    floats: &mut [f32],
    counters: &mut [u64],
    labels: &mut [u8],
    out: &mut [u8],
) -> UpdateAnswer
    requires { FinishRoom state advanced.started (places_in (length floats.old) (length counters.old) (length labels.old)) (length out.old / track_bytes) }
    ensures { call_with result (ending_with floats.new counters.new labels.new out.new)
        ≡ finished settings state advanced (ending_with floats.old counters.old labels.old out.old) }
{
    let places = boost_tracker_table::places_in(floats.len(), counters.len(), labels.len());
    let frame = state.frames + 1;
    let started = advanced.started;
    let all = state.count + started;
    let emitted = boost_tracker_emission::emit(
        floats,
        counters,
        &labels[..all],
        all,
        frame as u32,
        settings.min_hits,
        settings.cap_confidence,
        out,
    );
    boost_tracker_table::retire_labels(floats, counters, labels, all, settings.max_age);
    let count = boost_tracker_table::retire(floats, counters, all, settings.max_age);
    boost_tracker_table::clear_beyond(floats, counters, count, places);
    boost_tracker_table::clear_labels(labels, count, places);
    let last = state.last + started as u64;
    let after = State {
        count,
        last,
        frames: frame,
    };
    UpdateAnswer {
        verdict: Ok(()),
        state: after,
        emitted,
        turns: advanced.turns,
        scans: advanced.scans,
    }
}

fn refused(why: Refusal, state: State) -> UpdateAnswer
    ensures { result ≡ refused_answer (Err why) state }
{
    UpdateAnswer {
        verdict: Err(why),
        state,
        emitted: 0,
        turns: 0,
        scans: 0,
    }
}

// A frame of boxes, five floats and a label each, for the tracks of the lent table.
pub fn update(
    settings: Settings,
    state: State,
    floats: &mut [f32],
    counters: &mut [u64],
    labels: &mut [u8],
    boxes: &[f32],
    box_labels: &[u8],
    out: &mut [u8],
    work64: &mut [f64],
    work32: &mut [f32],
) -> UpdateAnswer
    ensures { call_with result (memory_with floats.new counters.new labels.new out.new work64.new work32.new)
        ≡ updated settings state (boxes_with boxes.now box_labels.now)
        (memory_with floats.old counters.old labels.old out.old work64.old work32.old) }
{
    let advanced = advance(
        settings,
        state,
        floats,
        counters,
        labels,
        boxes,
        box_labels,
        out.len(),
        work64,
        work32,
    );
    match advanced {
        Ok(steps) => finish(settings, state, steps, floats, counters, labels, out),
        Err(why) => refused(why, state),
    }
}
