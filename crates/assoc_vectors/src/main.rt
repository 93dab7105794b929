// Replays the calls of standard input and prints a line for each: its title, the refusal and the counts, a digest of what it was given and one of
// every cell that it was lent. oracle/assoc/run writes both files, stdin by its own rules and stdout by the published assoc.rs and lapjv.rs.
//
// A record is its kind and words. The kinds 0 to 7 are calls of iou_batch, soft_biou_batch, shape_similarity_v1, shape_similarity_v2, mh_dist_similarity,
// match_detections, linear_assignment and associate. Their 25 words: n boxes in two halves, m tracks, flags of associate (1 distances, 2 confidences,
// 4 the corrected shape), threshold or temperature, three weights; where the five inputs start and end among the floats that are held; the lengths lent
// for a matrix, four lists and both work slices. Of associate two words follow, how many labels boxes and tracks have, and these, a byte each. Then a title.
// 8 holds floats, from a first place to a last: these two are its words, and the floats follow. 9 draws them (vectors::cells); of its 25 words 2
// to 5 are the seed in two halves, the spread and the step, and 6 to 21 the patterns.
#![tactic(auto)]

use assoc::{AssignmentCounts, AssociateParams, MatchCounts, Refusal};
use vectors::held::hold;
use vectors::line::Line;
use vectors::{input, lent, part};
use vectors_digest::digest;
use vectors_digest::floats::float;

// 0 and the counts of a call that is accepted; the number of a refusal.
fn matched(line: Line, answer: Result<MatchCounts, Refusal>) -> Line {
    match answer {
        Ok(c) => {
            let pairs = line.number(0).number(c.pairs as u64);
            pairs.number(c.turns as u64).number(c.scans as u64)
        }
        Err(why) => line.number(u32::from(why) as u64),
    }
}

fn assigned(line: Line, answer: Result<AssignmentCounts, Refusal>) -> Line {
    match answer {
        Ok(c) => {
            let pairs = line.number(0).number(c.pairs as u64);
            let lists = pairs.number(c.detections as u64).number(c.tracks as u64);
            lists.number(c.turns as u64).number(c.scans as u64)
        }
        Err(why) => line.number(u32::from(why) as u64),
    }
}

fn params(w: &[u64; 25]) -> AssociateParams {
    AssociateParams {
        iou_threshold: float(w[4]),
        lambda_iou: float(w[5]),
        lambda_mhd: float(w[6]),
        lambda_shape: float(w[7]),
        use_shape_similarity_correction: w[3] / 4 % 2 == 1,
        has_mahalanobis: w[3] % 2 == 1,
        has_confidence: w[3] / 2 % 2 == 1,
    }
}

fn inputs(w: &[u64; 25], held: &[f32]) -> u64 {
    let a = digest::floats(digest::START, part::floats(held, w[8], w[9]));
    let b = digest::floats(a, part::floats(held, w[10], w[11]));
    let c = digest::floats(b, part::floats(held, w[12], w[13]));
    let d = digest::floats(c, part::floats(held, w[14], w[15]));
    digest::floats(d, part::floats(held, w[16], w[17]))
}

// A matrix of 7s is lent.
// Kept: a call is picked by the number that stands for it in standard input.
fn matrix(kind: u32, w: &[u64; 25], held: &[f32]) {
    let mut cells = [7.0f32; 65027];
    let out = lent::first(&mut cells, w[18]);
    let n = part::whole(w[0], w[1]) as usize;
    let m = w[2] as usize;
    let a = part::floats(held, w[8], w[9]);
    let b = part::floats(held, w[10], w[11]);
    let c = part::floats(held, w[12], w[13]);
    let verdict = match kind {
        0 => assoc_similarity::iou_batch(n, m, a, b, out),
        1 => assoc_similarity::soft_biou_batch(n, m, a, b, c, out),
        2 => assoc_similarity::shape_similarity_v1(n, m, a, b, out),
        3 => assoc_similarity::shape_similarity_v2(n, m, a, b, out),
        _ => assoc_similarity::mh_dist_similarity(n, m, a, float(w[4]), out),
    };
    let said = Line::titled()
        .bar()
        .number(verdict.map_or_else(u32::from, |()| 0) as u64);
    let given = said.bar().digest(inputs(w, held));
    given.digest(digest::floats(digest::START, out)).print();
}

// Lists of 7777s and work slices of 1s are lent.
// Kept: a call is picked by the number that stands for it in standard input.
fn pairs(kind: u32, w: &[u64; 25], held: &[f32]) {
    let mut pairs = [7777usize; 257];
    let mut more = [7777usize; 257];
    let mut boxes = [7777usize; 257];
    let mut tracks = [7777usize; 257];
    let mut doubles = [1.0f64; 65538];
    let mut floats = [1.0f32; 262146];
    let mut of_boxes = [0u8; 257];
    let mut of_tracks = [0u8; 257];
    let mut l = [0u64; 2];
    input::words(if kind == 7 { 2 } else { 0 }, 0, &mut l);
    let x = input::bytes(&mut of_boxes, l[0]);
    let y = input::bytes(&mut of_tracks, l[1]);
    let p = lent::first(&mut pairs, w[19]);
    let q = lent::first(&mut more, w[20]);
    let r = lent::first(&mut boxes, w[21]);
    let s = lent::first(&mut tracks, w[22]);
    let u = lent::first(&mut doubles, w[23]);
    let v = lent::first(&mut floats, w[24]);
    let n = part::whole(w[0], w[1]) as usize;
    let m = w[2] as usize;
    let a = part::floats(held, w[8], w[9]);
    let b = part::floats(held, w[10], w[11]);
    let c = part::floats(held, w[12], w[13]);
    let d = part::floats(held, w[14], w[15]);
    let e = part::floats(held, w[16], w[17]);
    let given = digest::bytes(digest::bytes(inputs(w, held), x), y);
    let line = Line::titled().bar();
    let said = match kind {
        5 => matched(line, assoc::match_detections(n, m, a, float(w[4]), p, q, u)),
        6 => assigned(
            line,
            assoc::linear_assignment(n, m, a, b, float(w[4]), p, q, r, s, u),
        ),
        _ => assigned(
            line,
            assoc::associate(params(w), n, m, a, b, c, d, e, x, y, p, q, r, s, u, v),
        ),
    };
    let lists = digest::numbers(digest::numbers(digest::START, p), q);
    let all = digest::numbers(digest::numbers(lists, r), s);
    let lent = digest::floats(digest::doubles(all, u), v);
    said.bar().digest(given).digest(lent).print();
}

// One record; false where there is none left.
// Kept: what a record is stands in standard input as a number.
fn replay(held: &mut [f32; 198154]) -> bool {
    let kind = input::word_or(10);
    let mut w = [0u64; 25];
    input::words(if kind == 8 { 2 } else { 25 }, 0, &mut w);
    match kind {
        0..=4 => matrix(kind, &w, held),
        5..=7 => pairs(kind, &w, held),
        _ => hold(kind == 8, &w, held),
    }
    kind < 10
}

// A proved loop has to end, and nothing says that the input does: the range is one that no run uses up.
fn main() {
    let mut held = [0.0f32; 198154];
    for _ in 0..u64::MAX {
        if !replay(&mut held) {
            return;
        }
    }
}
