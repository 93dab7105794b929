// What why answers of boxes of a frame, a line each: the index; number and index of the refusal; where it is explained fate and id, the three scores, and the track
// that it was paired with by id, IoU, intersection and union; and a digest of the work slices.
use boost_tracker::{Settings, State};
use boost_tracker_why::{Explanation, WhyRefusal, why};
use vectors::line::Line;
use vectors::part::at_most;
use vectors::{input, lent};
use vectors_digest::digest;

// More than any list asks about.
const MOST: usize = 1024;

fn told(line: Line, e: Explanation) -> Line {
    let fate = e.fate;
    let partner = e.partner;
    let named = line
        .bar()
        .number(u64::from(u32::from(fate)))
        .number(fate.id())
        .bar();
    let scored = named
        .float(e.score)
        .float(e.score_dlo)
        .float(e.score_duo)
        .bar();
    let paired = scored.number(partner.id).float(partner.iou);
    paired.float(partner.intersection).float(partner.union)
}

fn answer(line: Line, a: Result<Explanation, WhyRefusal>) -> Line {
    match a {
        Ok(e) => told(line.bar().number(0).number(0), e),
        Err(why) => line
            .bar()
            .number(u64::from(u32::from(why)))
            .number(why.index()),
    }
}

// Before the call each cell of the work slices is 1.
fn ask(
    w: &[u64; 17],
    settings: Settings,
    state: State,
    f: &[f32],
    c: &[u64],
    l: &[u8],
    boxes: &[f32],
    labels: &[u8],
    index: usize,
) {
    let mut doubles = [1.0f64; 65568];
    let mut singles = [1.0f32; 262176];
    let u = lent::first(&mut doubles, w[3]);
    let v = lent::first(&mut singles, w[4]);
    let a = why(
        settings,
        state,
        f,
        c,
        l,
        boxes,
        labels,
        w[2] as usize,
        u,
        v,
        index,
    );
    let said = answer(Line::new().text(b"box").number(index as u64), a).bar();
    said.digest(digest::floats(digest::doubles(digest::START, u), v))
        .print();
}

// The boxes from w[5] on, w[6] of them.
pub(crate) fn ask_all(
    w: &[u64; 17],
    settings: Settings,
    state: State,
    f: &[f32],
    c: &[u64],
    l: &[u8],
) {
    let mut values = [0.0f32; 1280];
    let mut of_boxes = [0u8; 258];
    let boxes = lent::first(&mut values, w[0]);
    input::floats(1280, 0.0, boxes);
    let labels = input::bytes(&mut of_boxes, w[1]);
    let first = at_most(MOST, w[5]);
    let many = at_most(MOST, w[6]);
    for index in first..first + many {
        ask(w, settings, state, f, c, l, boxes, labels, index);
    }
}
