// Replays the boosts and the pairing of frames, each on what the published tracker has there, and prints a line for each: digests of the scores after DLO and
// after DUO, how many boxes have a score of det_thresh and more and a digest of which; of these the distances to the tracks, and what associate answers and
// leaves. oracle/boosts/run writes both files.
// A record is 24 words: the kind 1; flags (1 DLO, 2 DUO, 4 rich, 8 soft, 16 varying, 32 shape v1), det_thresh, iou_threshold, the three weights,
// dlo_boost_coef, frame count; boxes, tracks, retained boxes; where seven lists of floats end: corners of the boxes, of the retained ones, their scores,
// corners of the tracks, confidences, states, reciprocals of the variances; the cells of the distances and of the retained boxes' distances. Then the times
// since update, the seven lists, the labels of the boxes, of the tracks and of the retained boxes, a byte each, a title, and the scores of the boxes.
#![tactic(auto)]

use vectors::line::Line;
use vectors::{input, lent, part};
use vectors_digest::digest;
use vectors_digest::floats::float;

fn settings(w: &[u64; 24]) -> boost_tracker_dlo::DloSettings {
    boost_tracker_dlo::DloSettings {
        rich: w[1] / 4 % 2 == 1,
        corrected: w[1] / 32 % 2 == 0,
        soft: w[1] / 8 % 2 == 1,
        varying: w[1] / 16 % 2 == 1,
        coef: float(w[7]),
        thresh: float(w[2]),
    }
}

fn params(w: &[u64; 24]) -> assoc::AssociateParams {
    let some = w[11] > 0 && w[10] > 0;
    assoc::AssociateParams {
        iou_threshold: float(w[3]),
        lambda_iou: float(w[4]),
        lambda_mhd: float(w[5]),
        lambda_shape: float(w[6]),
        use_shape_similarity_correction: w[1] / 32 % 2 == 0,
        has_mahalanobis: some,
        has_confidence: some,
    }
}

// Both boosts, each over the distances that it reads: the scores after each, and which boxes are retained.
fn boosted(line: Line, w: &[u64; 24], lists: &[f32], ts: &[u32], k: &[u8], l: &[u8]) -> Line {
    let mut values = [0.0f32; 255];
    let mut cells = [0.0f32; 65025];
    let scores = lent::first(&mut values, w[9]);
    let work = lent::first(&mut cells, w[19]);
    input::floats(255, 0.0, scores);
    let n = w[9] as usize;
    let m = w[10] as usize;
    let a = part::floats(lists, 0, w[12]);
    let t = part::floats(lists, w[14], w[15]);
    let c = part::floats(lists, w[15], w[16]);
    let x = part::floats(lists, w[16], w[17]);
    let s = part::floats(lists, w[17], w[18]);
    if (w[1] % 2 == 1) & (m > 0) {
        let _ = boost_tracker_mh_dist::get_mh_dist_matrix(n, m, a, x, s, work);
        let _ = boost_tracker_dlo::dlo_confidence_boost(
            settings(w),
            n,
            m,
            a,
            t,
            c,
            ts,
            k,
            l,
            work,
            scores,
        );
    }
    let after_dlo = line.digest(digest::floats(digest::START, scores));
    if (w[1] / 2 % 2 == 1) & (m > 0) {
        let _ = boost_tracker_mh_dist::get_mh_dist_matrix(n, m, a, x, s, work);
        let _ = boost_tracker_duo::duo_confidence_boost(w[8], float(w[2]), n, m, a, work, scores);
    }
    let after_duo = after_dlo.digest(digest::floats(digest::START, scores));
    let counted = after_duo.number(w[11]);
    counted.digest(retained(float(w[2]), scores))
}

// Joins the number of each score that is at least `least`.
fn retained(least: f32, scores: &[f32]) -> u64 {
    let mut sum = digest::START;
    for (k, score) in scores.iter().enumerate() {
        if *score >= least {
            sum = digest::join(sum, k as u64);
        }
    }
    sum
}

fn answer(line: Line, answer: Result<assoc::AssignmentCounts, assoc::Refusal>) -> Line {
    match answer {
        Ok(c) => {
            let pairs = line.number(c.pairs as u64).number(c.detections as u64);
            let turns = pairs.number(c.tracks as u64).number(c.turns as u64);
            turns.number(c.scans as u64)
        }
        Err(_) => line.text(b" refused"),
    }
}

// The pairing of the retained boxes with the tracks, by their distances.
fn paired(line: Line, w: &[u64; 24], lists: &[f32], k: &[u8], l: &[u8]) -> Line {
    let mut cells = [0.0f32; 65025];
    let mut pairs = [7777usize; 255];
    let mut more = [7777usize; 255];
    let mut boxes = [7777usize; 255];
    let mut tracks = [7777usize; 255];
    let mut doubles = [0.0f64; 65025];
    let mut floats = [0.0f32; 260100];
    let d = lent::first(&mut cells, w[20]);
    let p = lent::first(&mut pairs, 255);
    let q = lent::first(&mut more, 255);
    let r = lent::first(&mut boxes, 255);
    let s = lent::first(&mut tracks, 255);
    let u = lent::first(&mut doubles, 65025);
    let v = lent::first(&mut floats, 260100);
    let n = w[11] as usize;
    let m = w[10] as usize;
    let b = part::floats(lists, w[12], w[13]);
    let e = part::floats(lists, w[13], w[14]);
    let t = part::floats(lists, w[14], w[15]);
    let c = part::floats(lists, w[15], w[16]);
    let x = part::floats(lists, w[16], w[17]);
    let y = part::floats(lists, w[17], w[18]);
    let _ = boost_tracker_mh_dist::get_mh_dist_matrix(n, m, b, x, y, d);
    let measured = line.digest(digest::floats(digest::START, d));
    let said = assoc::associate(params(w), n, m, b, t, d, c, e, k, l, p, q, r, s, u, v);
    let sum = digest::numbers(digest::numbers(digest::START, p), q);
    answer(measured, said).digest(digest::numbers(digest::numbers(sum, r), s))
}

// One record; false where there is none left.
fn replay() -> bool {
    let mut w = [0u64; 24];
    input::words(24, 0, &mut w);
    if w[0] != 1 {
        return false;
    }
    let mut since = [0u32; 255];
    let mut floats = [0.0f32; 5610];
    let mut of_boxes = [0u8; 255];
    let mut of_tracks = [0u8; 255];
    let mut of_kept = [0u8; 255];
    let times = lent::first(&mut since, w[10]);
    let lists = lent::first(&mut floats, w[18]);
    input::counts(255, 0, times);
    input::floats(5610, 0.0, lists);
    let k = input::bytes(&mut of_boxes, w[9]);
    let l = input::bytes(&mut of_tracks, w[10]);
    let kept = input::bytes(&mut of_kept, w[11]);
    let boosts = boosted(Line::titled().bar(), &w, lists, times, k, l).bar();
    paired(boosts, &w, lists, kept, l).print();
    true
}

// A proved loop has to end, and nothing says that the input does: the count is one that no run uses up.
// Kept: the call is all in which such a loop differs from another program's.
fn main() {
    for _ in 0..u64::MAX {
        if !replay() {
            return;
        }
    }
}
