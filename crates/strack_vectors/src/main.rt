// Replays walks of predict and correct, counters at the ends of their ranges, and boxes, and prints a line for each
// record: floats in bits, numbers, digests. oracle/strack/run writes both files, stdin by its own rules and stdout by the
// published Rust.
//
// A record is its kind and nine words, floats but for numbers. 0 starts a track: its id, its box. 1 predicts, and
// corrects by as many boxes as the first word says; two follow. 2 prints the track whole. 3 is a confidence with
// counters: of the words 1 to 4 the first two are the time since update and the others the age, the lower half first.
// 4 is what the functions of a box make of two boxes.
#![tactic(auto)]

use strack::rect::{Rect, Xyxy};
use strack::strack::KalmanBoxTracker;
use strack_filter::kalman_filter::Pair;
use vectors::input;
use vectors::line::Line;
use vectors::part::whole;
use vectors_digest::digest;
use vectors_digest::floats::float;

fn corners(line: Line, b: Xyxy) -> Line {
    line.floats(&[b.x1, b.y1, b.x2, b.y2])
}

fn sides(line: Line, r: Rect) -> Line {
    line.floats(&[r.x(), r.y(), r.width(), r.height()])
}

fn pair(line: Line, s: Pair) -> Line {
    line.floats(&[s.p, s.v, s.a, s.b, s.c, s.d])
}

fn counters(line: Line, t: KalmanBoxTracker) -> Line {
    line.number(t.since).number(t.streak).number(t.age)
}

fn box_of(a: u64, b: u64, c: u64, d: u64) -> Xyxy {
    Xyxy {
        x1: float(a),
        y1: float(b),
        x2: float(c),
        y2: float(d),
    }
}

// What a record asks for.
#[derive(Drop)]
enum Record {
    Start {
        id: u64,
        bbox: Xyxy,
    },
    Step {
        corrections: u64,
        first: Xyxy,
        second: Xyxy,
    },
    Whole,
    Counters {
        since: u64,
        age: u64,
    },
    Boxes(Xyxy, Xyxy),
}

// The next record; None where the input ends, or is no record.
// Kept: the number of a kind is the input's, and is told here alone.
fn next_record() -> Option<Record> {
    let kind = input::word_or(5);
    if kind > 4 {
        return None;
    }
    let mut w = [0u64; 9];
    input::words(9, 0, &mut w);
    let a = box_of(w[1], w[2], w[3], w[4]);
    let b = box_of(w[5], w[6], w[7], w[8]);
    Some(match kind {
        0 => Record::Start { id: w[0], bbox: a },
        1 => Record::Step {
            corrections: w[0],
            first: a,
            second: b,
        },
        2 => Record::Whole,
        3 => Record::Counters {
            since: whole(w[1], w[2]),
            age: whole(w[3], w[4]),
        },
        _ => Record::Boxes(a, b),
    })
}

// A refused correction hands the track back as it was.
fn correct(t: KalmanBoxTracker, bbox: Xyxy) -> KalmanBoxTracker {
    t.correct(bbox).unwrap_or_else(|before| before)
}

fn stepped(t: KalmanBoxTracker, corrections: u64, first: Xyxy, second: Xyxy) -> KalmanBoxTracker {
    let later = t.predict();
    match corrections {
        0 => later,
        1 => correct(later, first),
        _ => correct(correct(later, first), second),
    }
}

fn with_pair(sum: u64, s: Pair) -> u64 {
    digest::floats(sum, &[s.p, s.v, s.a, s.b, s.c, s.d])
}

// The box and the confidence, then a digest of the track whole.
fn report(t: KalmanBoxTracker) -> Line {
    let xy = with_pair(with_pair(digest::join(digest::START, t.id), t.kf.x), t.kf.y);
    let all = with_pair(with_pair(xy, t.kf.h), t.kf.r);
    let seen = corners(Line::new(), t.get_state()).float(t.get_confidence(0.9));
    seen.digest(digest::words(all, &[t.since, t.streak, t.age]))
}

fn state(t: KalmanBoxTracker) -> Line {
    pair(
        pair(pair(pair(Line::new(), t.kf.x), t.kf.y), t.kf.h),
        t.kf.r,
    )
}

// The confidence at these counters, and the counters after predict and after a correction.
fn edge(since: u64, age: u64) -> Line {
    let unit = Rect::new(0.0, 0.0, 1.0, 1.0).get_xyxy();
    let mut t = KalmanBoxTracker::new(unit, 1);
    t.since = since;
    t.streak = age;
    t.age = age;
    let usual = Line::new().float(t.get_confidence(0.9));
    let zero = usual.float(t.get_confidence(0.0));
    let negative = zero.float(t.get_confidence(-1.5));
    let one = negative.float(t.get_confidence(1.0));
    let mut later = t.predict();
    let predicted = counters(one, later);
    later.streak = since;
    counters(predicted, correct(later, unit))
}

fn boxes(a: Xyxy, b: Xyxy) -> Line {
    let r = Rect::new(a.x1, a.y1, a.x2, a.y2);
    let iou = r.calc_iou(Rect::new(b.x1, b.y1, b.x2, b.y2));
    let z = r.get_xyah();
    let m = strack::strack::convert_bbox_to_z(a);
    let measures = Line::new().floats(&[r.area(), iou, z.x, z.y, z.a, z.h]);
    let of_corners = Rect::from_xyxy(a.x1, a.y1, b.x2, b.y2);
    let of_center = Rect::from_xyhr(a.x1, a.y1, a.x2, a.y2);
    let rects = sides(
        sides(corners(measures, r.get_xyxy()), of_corners),
        of_center,
    );
    let from_z = strack::strack::convert_z_to_bbox(strack_filter::kalman_filter::DetectBox {
        x: a.x1,
        y: a.y1,
        h: a.x2,
        r: a.y2,
    });
    corners(rects.floats(&[m.x, m.y, m.h, m.r]), from_z)
}

// A proved loop has to end, and nothing says that the input does: the range is one that no run uses up.
fn main() {
    let mut track = KalmanBoxTracker::new(Rect::new(0.0, 0.0, 1.0, 1.0).get_xyxy(), 0);
    for _ in 0..u64::MAX {
        let Some(record) = next_record() else {
            return;
        };
        let line = match record {
            Record::Start { id, bbox } => {
                track = KalmanBoxTracker::new(bbox, id);
                report(track)
            }
            Record::Step {
                corrections,
                first,
                second,
            } => {
                track = stepped(track, corrections, first, second);
                report(track)
            }
            Record::Whole => state(track),
            Record::Counters { since, age } => edge(since, age),
            Record::Boxes(a, b) => boxes(a, b),
        };
        line.print();
    }
}
