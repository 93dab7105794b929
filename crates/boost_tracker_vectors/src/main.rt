// Replays frames and drops of standard input through update, forget_set and forget, and prints a line for each: what it answers, and digests of what it is given and of all that it
// leaves; and a line for each box that is asked about, what why answers. oracle/boost_tracker/run writes both files, stdin by its own rules and stdout by the published tracker with the label rule.
// A record is its kind and words. 0 lends a table: flags (1 DLO, 2 DUO, 4 rich, 8 soft, 16 varying, 32 shape v1, 64 capped confidences), det_thresh, iou_threshold,
// the three weights, dlo_boost_coef, max_age, min_hits; count, last id and frame count; how many floats, counters and labels are lent, and how many floats and
// counters follow, the others being 7; then a title, these, and all labels, a byte each. 1 is a frame over the table as it was left: how many floats and labels
// its boxes have, the lengths of output and both work slices, then floats and labels. 2 asks about boxes of such a frame, and leaves the table: behind the
// lengths the index of the first and how many they are. 3 is a drop over the table: how many ids, then these, two words each. 4 is the same by forget, of one id.
#![tactic(auto)]

mod asked;

use asked::ask_all;
use boost_tracker::{Refusal, Settings, State, UpdateAnswer};
use boost_tracker_forget::Forgotten;
use vectors::line::Line;
use vectors::part::at_most;
use vectors::{input, lent};
use vectors_digest::digest;
use vectors_digest::floats::float;

// What goes on from record to record beside the table: the next one's kind, and how many floats, counters and labels are lent.
#[derive(Clone, Copy)]
// Kept: the kind is the number that stands for it in standard input.
struct Playing {
    kind: u32,
    settings: Settings,
    state: State,
    floats: u64,
    counters: u64,
    labels: u64,
}

fn settings(w: &[u64; 17]) -> Settings {
    Settings {
        det_thresh: float(w[1]),
        iou_threshold: float(w[2]),
        lambda_iou: float(w[3]),
        lambda_mhd: float(w[4]),
        lambda_shape: float(w[5]),
        dlo_boost_coef: float(w[6]),
        max_age: w[7],
        min_hits: w[8],
        use_dlo_boost: w[0] % 2 == 1,
        use_duo_boost: w[0] / 2 % 2 == 1,
        use_rich_similarity: w[0] / 4 % 2 == 1,
        use_shape_similarity_correction: w[0] / 32 % 2 == 0,
        use_soft_boost: w[0] / 8 % 2 == 1,
        use_varying_threshold: w[0] / 16 % 2 == 1,
        cap_confidence: w[0] / 64 % 2 == 1,
    }
}

fn started(w: &[u64; 17]) -> Playing {
    Playing {
        kind: 0,
        settings: settings(w),
        state: State {
            count: w[9] as usize,
            last: w[10],
            frames: w[11],
        },
        floats: w[12],
        counters: w[13],
        labels: w[14],
    }
}

fn table(f: &[f32], c: &[u64], l: &[u8]) -> u64 {
    digest::bytes(digest::words(digest::floats(digest::START, f), c), l)
}

// Reads a table, and prints digests of the words and of what is lent.
fn opened(w: &[u64; 17], f: &mut [f32], c: &mut [u64], l: &mut [u8]) {
    let title = Line::titled().bar();
    input::floats(w[15] as usize, 7.0, f);
    input::words(w[16] as usize, 7, c);
    io::read_full(0, l);
    let words = title.digest(digest::words(digest::START, w));
    words.digest(table(f, c, l)).print();
}

// Number and index of a refusal, both 0 where there is none.
fn refused(line: Line, verdict: Result<(), Refusal>) -> Line {
    match verdict {
        Ok(()) => line.number(0).number(0),
        Err(why) => line.number(u64::from(u32::from(why))).number(why.index()),
    }
}

fn answer(line: Line, boxes: &[f32], labels: &[u8], a: UpdateAnswer) -> Line {
    let state = a.state;
    let given = line.number(boxes.len() as u64 / 5).bar();
    let verdict = refused(given, a.verdict).bar();
    let emitted = verdict.number(a.emitted as u64).number(a.turns as u64);
    let counted = emitted.number(a.scans as u64).bar();
    let held = counted.number(state.count as u64).number(state.last);
    let boxed = held.number(state.frames).bar();
    boxed.digest(digest::bytes(digest::floats(digest::START, boxes), labels))
}

// The state after a frame. Before the call each byte of the output is 7 and each cell of the work slices 1.
fn frame(w: &[u64; 17], now: Playing, f: &mut [f32], c: &mut [u64], l: &mut [u8]) -> State {
    let mut values = [0.0f32; 1280];
    let mut of_boxes = [0u8; 258];
    let mut bytes = [7u8; 16929];
    let mut doubles = [1.0f64; 65568];
    let mut singles = [1.0f32; 262176];
    let boxes = lent::first(&mut values, w[0]);
    let out = lent::first(&mut bytes, w[2]);
    let u = lent::first(&mut doubles, w[3]);
    let v = lent::first(&mut singles, w[4]);
    input::floats(1280, 0.0, boxes);
    let b = input::bytes(&mut of_boxes, w[1]);
    let a = boost_tracker::update(now.settings, now.state, f, c, l, boxes, b, out, u, v);
    let said = answer(Line::new().text(b"frame"), boxes, b, a);
    let left = said.digest(table(f, c, l));
    let work = digest::doubles(digest::bytes(digest::START, out), u);
    left.digest(digest::floats(work, v)).print();
    a.state
}

// Kept: what is done of a record is picked by the number that stands for it in standard input.
fn drops(now: Playing, f: &mut [f32], c: &mut [u64], l: &mut [u8], ids: &[u64]) -> Forgotten {
    if now.kind == 4 && ids.len() > 0 {
        return boost_tracker_forget::forget(now.state, f, c, l, ids[0]);
    }
    boost_tracker_forget::forget_set(now.state, f, c, l, ids)
}

fn of_drop(ids: &[u64], a: Forgotten) -> Line {
    let state = a.state;
    let given = Line::new().text(b"drop").number(ids.len() as u64).bar();
    let number = a.verdict.err().map_or(0, u32::from);
    let said = given.number(u64::from(number)).bar();
    let held = said.number(state.count as u64).number(state.last);
    held.number(state.frames)
        .bar()
        .digest(digest::words(digest::START, ids))
}

// The state after a drop.
fn dropped(w: &[u64; 17], now: Playing, f: &mut [f32], c: &mut [u64], l: &mut [u8]) -> State {
    let mut numbers = [0u64; 300];
    let ids = lent::first(&mut numbers, w[0]);
    input::longs(300, ids);
    let a = drops(now, f, c, l, ids);
    let said = of_drop(ids, a);
    said.digest(table(f, c, l)).print();
    a.state
}

// Kept: what is done of a record is picked by the number that stands for it in standard input.
fn step(w: &[u64; 17], now: Playing, f: &mut [f32], c: &mut [u64], l: &mut [u8]) -> State {
    if now.kind == 0 {
        opened(w, f, c, l);
        return now.state;
    }
    if now.kind == 1 {
        return frame(w, now, f, c, l);
    }
    if now.kind == 2 {
        ask_all(w, now.settings, now.state, f, c, l);
        return now.state;
    }
    dropped(w, now, f, c, l)
}

// One record, over the part of the table that is lent.
fn play(w: &[u64; 17], now: Playing, f: &mut [f32], c: &mut [u64], l: &mut [u8]) -> Playing {
    let a = at_most(f.len(), now.floats);
    let b = at_most(c.len(), now.counters);
    let d = at_most(l.len(), now.labels);
    let mut then = now;
    then.state = step(w, now, &mut f[..a], &mut c[..b], &mut l[..d]);
    then.kind = input::word_or(5);
    then
}

// How many words a frame has, a question about its boxes, or a drop.
// Kept: the number stands for a kind in standard input.
fn lengths(kind: u32) -> usize {
    if kind == 1 {
        return 5;
    }
    if kind == 2 { 7 } else { 1 }
}

// Kept: what is read of a record is picked by the number that stands for it in standard input.
fn replay(now: Playing, f: &mut [f32; 6143], c: &mut [u64; 1023], l: &mut [u8; 257]) -> Playing {
    let mut w = [0u64; 17];
    if now.kind == 0 {
        input::words(17, 0, &mut w);
        return play(&w, started(&w), f, c, l);
    }
    input::words(lengths(now.kind), 0, &mut w);
    play(&w, now, f, c, l)
}

// A proved loop has to end, and nothing says that the input does: the count is one that no run uses up.
fn main() {
    let mut floats = [7.0f32; 6143];
    let mut counters = [7u64; 1023];
    let mut labels = [7u8; 257];
    let mut now = started(&[0; 17]);
    now.kind = input::word_or(5);
    for _ in 0..u64::MAX {
        if now.kind > 4 {
            return;
        }
        now = replay(now, &mut floats, &mut counters, &mut labels);
    }
}
