// A frame of trackbox: what the tracker makes of its boxes, and the lines of that.
ghost use Rattle.std.specs.Prelude.{◌≡◌, true, length};
ghost use Rattle.boost_tracker_verdict.specs.Boxes.{boxes_with};
ghost use Rattle.trackbox_feed.specs.Trackbox as Trackbox;
ghost use Rattle.trackbox_feed.specs.Feed.{lent_with, work_with, has_room};
ghost use Rattle.trackbox_feed.specs.Private.{task_work};

use crate::lines::{put_lines, put_refused};
use boost_tracker::{Settings, State, update};
use records::BOX_VALUES;

// A frame that was worked: the table's state behind it, and how many bytes of text it has.
#[derive(Clone, Copy, Debug, PartialEq, Eq)]
pub struct Worked {
    pub table: State,
    pub text: usize,
}

// Document 01: `det_thresh` 0.6, `iou_threshold` 0.3, `max_age` 30, `min_hits` 3, otherwise those of `new`.
pub fn settings() -> Settings
    ensures { result ≡ Trackbox.settings }
{
    Settings::new(0.6, 0.3, 30, 3)
}

// Works a frame of the first so many boxes, or of as many as are lent; None: no frame. Err: the frame is turned down, and so many bytes of text say so; it names record nth.
pub(crate) fn work_task(
    state: State,
    nth: u64,
    task: Option<usize>,
    floats: &mut [f32],
    counters: &mut [u64],
    labels: &mut [u8],
    boxes: &[f32],
    box_labels: &[u8],
    out: &mut [u8],
    work64: &mut [f64],
    work32: &mut [f32],
    text: &mut [u8],
) -> Result<Worked, usize>
    requires { has_room (length out.old) (length text.old) ≡ true }
    ensures { work_with result (lent_with floats.new counters.new labels.new out.new work64.new work32.new text.new)
        ≡ task_work state nth task (boxes_with boxes.now box_labels.now)
        (lent_with floats.old counters.old labels.old out.old work64.old work32.old text.old) }
{
    let Some(k) = task else {
        return Ok(Worked {
            table: state,
            text: 0,
        });
    };
    let end = k.min(boxes.len() / BOX_VALUES) * BOX_VALUES;
    let labelled = k.min(box_labels.len());
    let answer = update(
        settings(),
        state,
        floats,
        counters,
        labels,
        &boxes[..end],
        &box_labels[..labelled],
        out,
        work64,
        work32,
    );
    match answer.verdict {
        Ok(()) => Ok(Worked {
            table: answer.state,
            text: put_lines(out, answer.emitted, text),
        }),
        Err(why) => Err(put_refused(u32::from(why) as u64, nth, text)),
    }
}
