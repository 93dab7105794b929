// The verdict on a frame, before any of its work: the first of its refusals that applies.
ghost use Rattle.std.specs.Prelude.{◌≡◌, ◌/◌, ◌≤◌};
ghost use Rattle.boost_tracker_table.specs.Lent.{table_with};
ghost use Rattle.boost_tracker_verdict.specs.Boxes.{boxes_with};
ghost use Rattle.boost_tracker_verdict.specs.Verdict as Spec;

use crate::bad_boxes::first_bad_box;
use crate::refusal::Refusal;
use crate::sound::{State, sound};
use crate::workable::{all_workable, finite_settings};
use boost_tracker_settings::Settings;
use boost_tracker_table::places_in;
use labels::first_unlabelled;
use records::{BOX_VALUES, TRACK_BYTES};

// 11, 10, 12, 13.
#[tactic(auto, unfolding(crate::specs::Verdict::of_table))]
fn of_table(
    settings: Settings,
    state: State,
    floats: &[f32],
    counters: &[u64],
    labels: &[u8],
) -> Result<(), Refusal>
    ensures { result ≡ Spec.of_table settings state (table_with floats.now counters.now labels.now) }
{
    if !sound(state, floats, counters, labels.len()) {
        return Err(Refusal::TableNotSound);
    }
    let held = state.count;
    if first_unlabelled(labels, held) < held {
        return Err(Refusal::TrackNotLabelled);
    }
    if !all_workable(floats, counters, held) {
        return Err(Refusal::TrackNotWorkable);
    }
    if !finite_settings(settings) {
        return Err(Refusal::SettingNotFinite);
    }
    Ok(())
}

// 14, 15, 16, 20.
#[tactic(auto, unfolding(crate::specs::Verdict::of_boxes))]
fn of_boxes(held: usize, places: usize, boxes: &[f32], labels: &[u8]) -> Result<(), Refusal>
    requires { held ≤ 255 }
    ensures { result ≡ Spec.of_boxes held places (boxes_with boxes.now labels.now) }
{
    let n = boxes.len() / BOX_VALUES;
    if 255 < n {
        return Err(Refusal::TooManyBoxes);
    }
    if places < held + n {
        return Err(Refusal::TableFull);
    }
    let bad = first_bad_box(boxes, n);
    if bad < n {
        return Err(Refusal::BadBox(bad));
    }
    let unlabelled = first_unlabelled(labels, n);
    if unlabelled < n {
        return Err(Refusal::BoxNotLabelled(unlabelled));
    }
    Ok(())
}

// 17, 18, 19, for n boxes.
#[tactic(auto, unfolding(crate::specs::Verdict::of_room))]
fn of_room(
    held: usize,
    n: usize,
    frames: u64,
    out: usize,
    work64: usize,
    work32: usize,
) -> Result<(), Refusal>
    requires { (held ≤ 255) × (n ≤ 255) }
    ensures { result ≡ Spec.of_room held n frames out work64 work32 }
{
    if 2147483647 <= frames {
        return Err(Refusal::TooManyFrames);
    }
    if out / TRACK_BYTES < held + n {
        return Err(Refusal::OutputShort);
    }
    let side = held.max(n);
    if work64 < side * side || work32 < 4 * (side * side) {
        return Err(Refusal::WorkShort);
    }
    Ok(())
}

// The output and the work slices are given by their lengths.
pub fn frame_verdict(
    settings: Settings,
    state: State,
    floats: &[f32],
    counters: &[u64],
    labels: &[u8],
    boxes: &[f32],
    box_labels: &[u8],
    out: usize,
    work64: usize,
    work32: usize,
) -> Result<(), Refusal>
    ensures { result ≡ Spec.verdict settings state (table_with floats.now counters.now labels.now) (boxes_with boxes.now box_labels.now) out work64 work32 }
{
    of_table(settings, state, floats, counters, labels)?;
    let held = state.count;
    let places = places_in(floats.len(), counters.len(), labels.len());
    of_boxes(held, places, boxes, box_labels)?;
    of_room(
        held,
        boxes.len() / BOX_VALUES,
        state.frames,
        out,
        work64,
        work32,
    )
}
