// What became of one box of a frame.
ghost use Rattle.std.specs.Prelude.{◌≡◌, length};
ghost use Rattle.boost_tracker_table.specs.Lent.{table_with, call_with};
ghost use Rattle.boost_tracker_verdict.specs.Boxes.{boxes_with};
ghost use Rattle.boost_tracker_why.specs.Answers.{work_with, why_call};
ghost use Rattle.bedside_answers.specs.Why.{call_in_c};

use bedside_answers::why::Explained;
use boost_tracker::{Settings, State};

#[unsafe(no_mangle)]
pub extern "C" fn bedside_why(
    settings: Settings,
    state: State,
    floats: &[f32],
    counters: &[u64],
    labels: &[u8],
    boxes: &[f32],
    box_labels: &[u8],
    out: &[u8],
    work64: &mut [f64],
    work32: &mut [f32],
    index: usize,
) -> Explained
    ensures { call_with result (work_with work64.new work32.new)
        ≡ call_in_c (why_call settings state (boxes_with boxes.now box_labels.now) (table_with floats.now counters.now labels.now) (length out.now) index
        (work_with work64.old work32.old)) }
{
    Explained::from(boost_tracker_why::why(
        settings,
        state,
        floats,
        counters,
        labels,
        boxes,
        box_labels,
        out.len(),
        work64,
        work32,
        index,
    ))
}
