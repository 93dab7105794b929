// The question, and its answer in words.
ghost use Rattle.std.specs.Prelude.{◌≡◌, true, ◌≤◌, leb, length, Err};
ghost use Rattle.boost_tracker_table.specs.Lent.{table_with, call_with};
ghost use Rattle.boost_tracker_verdict.specs.Boxes.{boxes_with};
ghost use Rattle.boost_tracker_why.specs.Answers.{work_with, why_call};
ghost use Rattle.trackbox_feed.specs.Trackbox as Trackbox;
ghost use Rattle.trackbox_feed.specs.Feed.{front};
ghost use Rattle.why_words.specs.Words.{line_most};
ghost use Rattle.why_io.specs.Answer.{Says, answer_text};

use boost_tracker_why::{Explanation, WhyRefusal, why};
use records::BOX_VALUES;
use records_line::write_refused;
use trackbox_feed::{Feed, settings};
use why_question::Question;
use why_words::{LINE_MOST, write_explanation, write_no_box};

// Of a frame of the first k boxes, as trackbox would work it.
pub(crate) fn ask(
    feed: Feed,
    k: usize,
    index: usize,
    floats: &[f32],
    counters: &[u64],
    labels: &[u8],
    boxes: &[f32],
    box_labels: &[u8],
    room: usize,
    work64: &mut [f64],
    work32: &mut [f32],
) -> Result<Explanation, WhyRefusal>
    ensures { call_with result (work_with work64.new work32.new)
        ≡ why_call Trackbox.settings feed.table (front k (boxes_with boxes.now box_labels.now)) (table_with floats.now counters.now labels.now) room index
        (work_with work64.old work32.old) }
{
    let end = k.min(boxes.len() / BOX_VALUES) * BOX_VALUES;
    let labelled = k.min(box_labels.len());
    why(
        settings(),
        feed.table,
        floats,
        counters,
        labels,
        &boxes[..end],
        &box_labels[..labelled],
        room,
        work64,
        work32,
        index,
    )
}

fn say_refusal(q: Question, first: u64, boxes: usize, why: WhyRefusal, text: &mut [u8]) -> usize
    requires { line_most ≤ length text.old }
    ensures { Says true (answer_text q first boxes (Err why)) text.old result text.new }
{
    match why {
        WhyRefusal::Frame(why) => write_refused(u32::from(why) as u64, first, text).unwrap_or(0),
        WhyRefusal::NoBox => write_no_box(q.frame, q.index, boxes as u64, text).unwrap_or(0),
    }
}

fn say_answer(
    q: Question,
    first: u64,
    boxes: usize,
    answer: Result<Explanation, WhyRefusal>,
    text: &mut [u8],
) -> usize
    requires { line_most ≤ length text.old }
    ensures { Says true (answer_text q first boxes answer) text.old result text.new }
{
    match answer {
        Ok(e) => write_explanation(q.frame, q.index, e, text).unwrap_or(0),
        Err(why) => say_refusal(q, first, boxes, why, text),
    }
}

// The answer in words, at the front of the text; nothing where fewer than LINE_MOST bytes are lent.
// A refusal of the frame is told as trackbox tells it, with the record that it names.
pub(crate) fn say(
    q: Question,
    first: u64,
    boxes: usize,
    answer: Result<Explanation, WhyRefusal>,
    text: &mut [u8],
) -> usize
    ensures { Says (leb line_most (length text.old)) (answer_text q first boxes answer) text.old result text.new }
{
    if text.len() < LINE_MOST {
        return 0;
    }
    say_answer(q, first, boxes, answer, text)
}
