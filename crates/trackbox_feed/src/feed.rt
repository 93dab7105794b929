// The state that takes one record after another, and then the end. A call works at most one frame, and the front of `text` is what it prints.
ghost use Rattle.std.specs.Prelude.{◌≡◌, ◌-◌};
ghost use Rattle.boost_tracker_verdict.specs.Boxes.{boxes_with};
ghost use Rattle.trackbox_feed.specs.Feed as Spec;
ghost use Rattle.trackbox_feed.specs.Feed.{lent_with, call_with};
ghost use Rattle.trackbox_feed.specs.Private as Private;

use crate::frame::{Worked, work_task};
use crate::lines::put_refused;
use boost_tracker::State;
use records::{BoxRecord, TRACK_BYTES};
use records_line::LINE_BYTES;
use trackbox_stream::{Fault, Next, OpenFrame, close, hold, hold_label, judge};

// What is known between two calls.
#[derive(Clone, Copy, Debug, PartialEq, Eq)]
pub struct Feed {
    pub opened: OpenFrame,
    // empty frames before the open one that are not worked yet
    pub empty: u32,
    // of the tracker
    pub table: State,
}

// What is handed on.
// Kept: the end is no error, and has a count of its own.
#[derive(Clone, Copy)]
pub enum Item {
    Record(BoxRecord),
    // The input has ended, with so many bytes behind the last whole record.
    End(usize),
}

// What a call answers.
// Kept: four answers, two of which carry what is known then.
#[derive(Clone, Copy, Debug, PartialEq)]
pub enum Fed {
    // The record is taken. What is known then, and how many bytes of text there are.
    Taken(Feed, usize),
    // An empty frame that comes before was worked: the call is to be made again with what is known then.
    Again(Feed, usize),
    // Nothing follows this text: the input has ended, or was turned down.
    Ended(usize),
    // The text is lent for no more lines than the output for records. Nothing is changed.
    Short,
}

// What a call does, unless the stream is turned down.
// Kept: four ways to go on; the refusal is the error beside them.
#[derive(Clone, Copy)]
pub enum Turn {
    // An empty frame that comes before is worked.
    Empty,
    // The record is the open frame's, and this is known with it.
    Same(BoxRecord, OpenFrame),
    // The open frame is worked. The record is a later frame's, before which so many are empty, and this is known with it.
    Later(BoxRecord, u32, OpenFrame),
    // The open frame is worked, and nothing follows.
    Last,
}

pub fn start() -> Feed
    ensures { result ≡ Spec.start }
{
    Feed {
        opened: trackbox_stream::start(),
        empty: 0,
        table: State {
            count: 0,
            last: 0,
            frames: 0,
        },
    }
}

// ---- what a call does

fn of_next(r: BoxRecord, next: Next) -> Turn
    ensures { result ≡ Private.of_next r next }
{
    match next {
        Next::Same(opened) => Turn::Same(r, opened),
        Next::Later(empty, opened) => Turn::Later(r, empty, opened),
    }
}

fn turn_of(feed: Feed, item: Item) -> Result<Turn, Fault>
    ensures { result ≡ Private.turn_of feed item }
{
    if 0 < feed.empty {
        return Ok(Turn::Empty);
    }
    match item {
        Item::Record(r) => Ok(of_next(r, judge(feed.opened, r.frame)?)),
        Item::End(rest) => {
            close(feed.opened, rest)?;
            Ok(Turn::Last)
        }
    }
}

// How many boxes the open frame has, if there is one.
fn open_task(opened: OpenFrame) -> Option<usize>
    ensures { result ≡ Private.open_task opened }
{
    if opened.frame == 0 {
        return None;
    }
    Some(opened.boxes)
}

// How many boxes the frame has that the turn works, if it works one.
fn task_of(opened: OpenFrame, turn: Turn) -> Option<usize>
    ensures { result ≡ Private.task_of opened turn }
{
    match turn {
        Turn::Empty => Some(0),
        Turn::Same(_, _) => None,
        Turn::Later(_, _, _) => open_task(opened),
        Turn::Last => open_task(opened),
    }
}

// ---- what follows of it

// Stores the record's box and its label in place k.
fn store(r: BoxRecord, k: usize, boxes: &mut [f32], box_labels: &mut [u8])
    ensures { boxes_with boxes.new box_labels.new ≡ Spec.stored_then r k (boxes_with boxes.old box_labels.old) }
{
    hold(r, k, boxes);
    hold_label(r, k, box_labels);
}

// Stores the first box of a new frame, unless the frame before it was turned down.
fn hold_first(r: BoxRecord, worked: Result<Worked, usize>, boxes: &mut [f32], box_labels: &mut [u8])
    ensures { boxes_with boxes.new box_labels.new ≡ Spec.boxes_then r worked (boxes_with boxes.old box_labels.old) }
{
    if worked.is_ok() {
        store(r, 0, boxes, box_labels);
    }
}

fn hold_turn(
    held: usize,
    turn: Turn,
    worked: Result<Worked, usize>,
    boxes: &mut [f32],
    box_labels: &mut [u8],
)
    ensures { boxes_with boxes.new box_labels.new ≡ Private.boxes_turn held turn worked (boxes_with boxes.old box_labels.old) }
{
    match turn {
        Turn::Empty => {}
        Turn::Same(r, _) => store(r, held, boxes, box_labels),
        Turn::Later(r, _, _) => hold_first(r, worked, boxes, box_labels),
        Turn::Last => {}
    }
}

fn again(feed: Feed, worked: Result<Worked, usize>) -> Fed
    ensures { result ≡ Spec.again_then feed worked }
{
    match worked {
        Ok(done) => Fed::Again(
            Feed {
                opened: feed.opened,
                empty: feed.empty.saturating_sub(1),
                table: done.table,
            },
            done.text,
        ),
        Err(n) => Fed::Ended(n),
    }
}

fn later(empty: u32, opened: OpenFrame, worked: Result<Worked, usize>) -> Fed
    ensures { result ≡ Spec.later_then empty opened worked }
{
    match worked {
        Ok(done) => Fed::Taken(
            Feed {
                opened,
                empty,
                table: done.table,
            },
            done.text,
        ),
        Err(n) => Fed::Ended(n),
    }
}

fn ended(worked: Result<Worked, usize>) -> Fed
    ensures { result ≡ Spec.last_then worked }
{
    match worked {
        Ok(done) => Fed::Ended(done.text),
        Err(n) => Fed::Ended(n),
    }
}

fn answer(feed: Feed, turn: Turn, worked: Result<Worked, usize>) -> Fed
    ensures { result ≡ Private.answer_turn feed turn worked }
{
    match turn {
        Turn::Empty => again(feed, worked),
        Turn::Same(_, opened) => later(0, opened, worked),
        Turn::Later(_, empty, opened) => later(empty, opened, worked),
        Turn::Last => ended(worked),
    }
}

// Hands a record or the end on. Lent are the table of tracks, the open frame's boxes and their labels, the records that a frame puts out, what its work needs, and the text.
pub fn take(
    feed: Feed,
    item: Item,
    floats: &mut [f32],
    counters: &mut [u64],
    labels: &mut [u8],
    boxes: &mut [f32],
    box_labels: &mut [u8],
    out: &mut [u8],
    work64: &mut [f64],
    work32: &mut [f32],
    text: &mut [u8],
) -> Fed
    ensures { call_with result (lent_with floats.new counters.new labels.new out.new work64.new work32.new text.new)
        (boxes_with boxes.new box_labels.new)
        ≡ Spec.fed feed item (lent_with floats.old counters.old labels.old out.old work64.old work32.old text.old)
        (boxes_with boxes.old box_labels.old) }
{
    if text.len() / LINE_BYTES <= out.len() / TRACK_BYTES {
        return Fed::Short;
    }
    let opened = feed.opened;
    let turn = match turn_of(feed, item) {
        Ok(turn) => turn,
        Err(fault) => return Fed::Ended(put_refused(u64::from(fault.why), fault.nth, text)),
    };
    let first = feed.opened.first;
    let worked = work_task(
        feed.table,
        first,
        task_of(opened, turn),
        floats,
        counters,
        labels,
        boxes,
        box_labels,
        out,
        work64,
        work32,
        text,
    );
    hold_turn(feed.opened.boxes, turn, worked, boxes, box_labels);
    answer(feed, turn, worked)
}
