// A frame, and the settings that it takes.
ghost use Rattle.std.specs.Prelude.{◌≡◌};
ghost use Rattle.boost_tracker_settings.specs.Settings.{new};
ghost use Rattle.boost_tracker_table.specs.Lent.{call_with};
ghost use Rattle.boost_tracker_verdict.specs.Boxes.{boxes_with};
ghost use Rattle.boost_tracker.specs.Frame.{memory_with, updated};
ghost use Rattle.bedside_answers.specs.Frame.{call_in_c};

use bedside_answers::frame::Updated;
use boost_tracker::{Settings, State};

// The Rust's `new`.
#[unsafe(no_mangle)]
pub extern "C" fn bedside_settings_new(
    det_thresh: f32,
    iou_threshold: f32,
    max_age: u64,
    min_hits: u64,
) -> Settings
    ensures { result ≡ new det_thresh iou_threshold max_age min_hits }
{
    Settings::new(det_thresh, iou_threshold, max_age, min_hits)
}

#[unsafe(no_mangle)]
pub extern "C" fn bedside_update(
    settings: Settings,
    state: State,
    floats: &mut [f32],
    counters: &mut [u64],
    labels: &mut [u8],
    boxes: &[f32],
    box_labels: &[u8],
    out: &mut [u8],
    work64: &mut [f64],
    work32: &mut [f32],
) -> Updated
    ensures { call_with result (memory_with floats.new counters.new labels.new out.new work64.new work32.new)
        ≡ call_in_c (updated settings state (boxes_with boxes.now box_labels.now)
        (memory_with floats.old counters.old labels.old out.old work64.old work32.old)) }
{
    Updated::from(boost_tracker::update(
        settings, state, floats, counters, labels, boxes, box_labels, out, work64, work32,
    ))
}
