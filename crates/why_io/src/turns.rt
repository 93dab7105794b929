// One turn after another: the buffer is filled once its records are taken, and a record or the end is handed on as trackbox does, until the frame asked about is due.
use crate::asking::{ask, say};
use program_io::read_full;
use records::BOX_BYTES;
use std::io::{Read, Stderr};
use std::ops::ControlFlow;
use trackbox_feed::{
    Fed, Feed, Item, LENT_BOX_LABELS, LENT_BOXES, LENT_COUNTERS, LENT_DOUBLES, LENT_FLOATS,
    LENT_LABELS, LENT_OUTPUT, LENT_SINGLES,
};
use trackbox_progress::{item, later, needed};
use why_question::{Move, Question, decide};

// More than the lines of 64 tracks and one more.
pub const TEXT_BYTES: usize = 8192;

// Whole records, so that none lies across the end of the buffer.
const INPUT_BYTES: usize = 65536 / BOX_BYTES * BOX_BYTES;

// Kept: three ways to end, each told otherwise.
#[derive(Clone, Copy, Debug, PartialEq, Eq)]
pub enum Ran {
    // So many bytes at the front of the text are the answer, or a refusal of the stream.
    Said(usize),
    // The file ends with this frame, before the one asked about.
    Over(u32),
    // A read failed, and standard error has a line that says so.
    Failed,
}

// What is known between two turns.
// Kept: `more` stands beside numbers that hold whatever it says.
#[derive(Clone, Copy, Debug, PartialEq, Eq)]
pub struct Progress {
    pub feed: Feed,
    // false once the file's last bytes are read
    pub more: bool,
    // bytes in the buffer
    pub got: usize,
    // the buffer's record that is handed on next
    pub next: usize,
}

fn start() -> Progress {
    Progress {
        feed: trackbox_feed::start(),
        more: true,
        got: 0,
        next: 0,
    }
}

// Reads on where the buffer's records are taken.
fn read_on<R: Read>(
    p: Progress,
    from: &mut R,
    errors: Stderr,
    name: &[u8],
    input: &mut [u8],
) -> ControlFlow<Ran, Progress> {
    if !((p.got / BOX_BYTES <= p.next) & p.more) {
        return ControlFlow::Continue(p);
    }
    let size = input.len();
    let Some(n) = read_full(from, errors, name, input) else {
        return ControlFlow::Break(Ran::Failed);
    };
    ControlFlow::Continue(Progress {
        more: size <= n,
        got: n,
        next: 0,
        ..p
    })
}

// A record is handed on until it is taken. What a call prints is dropped, but a refusal.
fn followed(p: Progress, fed: Fed) -> ControlFlow<Ran, Progress> {
    match fed {
        Fed::Taken(feed, _) => ControlFlow::Continue(Progress {
            feed,
            next: later(p.next, p.got),
            ..p
        }),
        Fed::Again(feed, _) => ControlFlow::Continue(Progress { feed, ..p }),
        Fed::Ended(n) => ControlFlow::Break(Ran::Said(n)),
        Fed::Short => ControlFlow::Break(Ran::Said(0)),
    }
}

// A frame is lent of the work slices what it needs: every lent cell is cleared.
fn pass(
    p: Progress,
    item: Item,
    floats: &mut [f32],
    counters: &mut [u64],
    labels: &mut [u8],
    boxes: &mut [f32],
    box_labels: &mut [u8],
    out: &mut [u8],
    work64: &mut [f64],
    work32: &mut [f32],
    text: &mut [u8],
) -> ControlFlow<Ran, Progress> {
    let cells = needed(p.feed.table.count, p.feed.opened.boxes);
    let feed = p.feed;
    let doubles = cells.min(work64.len());
    let singles = (4 * cells).min(work32.len());
    let fed = trackbox_feed::take(
        feed,
        item,
        floats,
        counters,
        labels,
        boxes,
        box_labels,
        out,
        &mut work64[..doubles],
        &mut work32[..singles],
        text,
    );
    followed(p, fed)
}

// The box is explained over the same memory; no track changes.
fn explain(
    q: Question,
    feed: Feed,
    k: usize,
    floats: &[f32],
    counters: &[u64],
    labels: &[u8],
    boxes: &[f32],
    box_labels: &[u8],
    room: usize,
    work64: &mut [f64],
    work32: &mut [f32],
    text: &mut [u8],
) -> ControlFlow<Ran, Progress> {
    let index = q.index as usize;
    let answer = ask(
        feed, k, index, floats, counters, labels, boxes, box_labels, room, work64, work32,
    );
    ControlFlow::Break(Ran::Said(say(q, feed.opened.first, k, answer, text)))
}

fn hand(
    q: Question,
    p: Progress,
    item: Item,
    floats: &mut [f32],
    counters: &mut [u64],
    labels: &mut [u8],
    boxes: &mut [f32],
    box_labels: &mut [u8],
    out: &mut [u8],
    work64: &mut [f64],
    work32: &mut [f32],
    text: &mut [u8],
) -> ControlFlow<Ran, Progress> {
    let feed = p.feed;
    match decide(q.frame, feed, item) {
        Move::Explain(k) => explain(
            q,
            feed,
            k,
            floats,
            counters,
            labels,
            boxes,
            box_labels,
            out.len(),
            work64,
            work32,
            text,
        ),
        Move::Over => ControlFlow::Break(Ran::Over(feed.opened.frame)),
        Move::Pass => pass(
            p, item, floats, counters, labels, boxes, box_labels, out, work64, work32, text,
        ),
    }
}

fn turn<R: Read>(
    q: Question,
    from: &mut R,
    errors: Stderr,
    name: &[u8],
    p: Progress,
    input: &mut [u8],
    floats: &mut [f32],
    counters: &mut [u64],
    labels: &mut [u8],
    boxes: &mut [f32],
    box_labels: &mut [u8],
    out: &mut [u8],
    work64: &mut [f64],
    work32: &mut [f32],
    text: &mut [u8],
) -> ControlFlow<Ran, Progress> {
    let ready = read_on(p, from, errors, name, input)?;
    let next = item(ready.next, ready.got.min(input.len()), input);
    hand(
        q, ready, next, floats, counters, labels, boxes, box_labels, out, work64, work32, text,
    )
}

// What is lent for a file: a buffer, and for 64 tracks and 64 boxes as trackbox does.
fn turn_over<R: Read>(
    q: Question,
    from: &mut R,
    errors: Stderr,
    name: &[u8],
    p: Progress,
    input: &mut [u8; INPUT_BYTES],
    floats: &mut [f32; LENT_FLOATS],
    counters: &mut [u64; LENT_COUNTERS],
    labels: &mut [u8; LENT_LABELS],
    boxes: &mut [f32; LENT_BOXES],
    box_labels: &mut [u8; LENT_BOX_LABELS],
    out: &mut [u8; LENT_OUTPUT],
    work64: &mut [f64; LENT_DOUBLES],
    work32: &mut [f32; LENT_SINGLES],
    text: &mut [u8],
) -> ControlFlow<Ran, Progress> {
    turn(
        q, from, errors, name, p, input, floats, counters, labels, boxes, box_labels, out, work64,
        work32, text,
    )
}

// The answer to a question about the file that `from` reads; `name` is what standard error calls it where a read fails.
// A proved loop has to end: the count of turns is one that no run uses up.
pub fn run<R: Read>(
    q: Question,
    from: &mut R,
    errors: Stderr,
    name: &[u8],
    text: &mut [u8],
) -> Ran {
    let mut input = [0u8; INPUT_BYTES];
    let mut floats = [0.0f32; LENT_FLOATS];
    let mut counters = [0u64; LENT_COUNTERS];
    let mut labels = [0u8; LENT_LABELS];
    let mut boxes = [0.0f32; LENT_BOXES];
    let mut box_labels = [0u8; LENT_BOX_LABELS];
    let mut out = [0u8; LENT_OUTPUT];
    let mut work64 = [0.0f64; LENT_DOUBLES];
    let mut work32 = [0.0f32; LENT_SINGLES];
    let mut now = start();
    'turns: for _ in 0..u64::MAX {
        let stand = turn_over(
            q,
            from,
            errors,
            name,
            now,
            &mut input,
            &mut floats,
            &mut counters,
            &mut labels,
            &mut boxes,
            &mut box_labels,
            &mut out,
            &mut work64,
            &mut work32,
            text,
        );
        match stand {
            ControlFlow::Continue(then) => now = then,
            ControlFlow::Break(ran) => return ran,
        }
    }
    Ran::Failed
}
