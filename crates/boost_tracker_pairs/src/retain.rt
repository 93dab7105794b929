// Step 3 of a frame: the boxes that are retained.
ghost use Rattle.std.specs.Prelude.{◌≡◌, cond, ◌+◌, ◌*◌, ◌≤◌, ◌<◌, length, get_or, set};
ghost use Rattle.std.specs.Float.{nan};
ghost use Rattle.std.specs.Float.Ieee.{le};
ghost use Rattle.laws.specs.Splice.{splice};
ghost use Rattle.laws.specs.Over.{Pushed};
ghost use Rattle.records.specs.BoxRecord.{box_values};
ghost use Rattle.boost_tracker_verdict.specs.Boxes.{boxes_with};
ghost use Rattle.boost_tracker_verdict.specs.Verdict.{boxes_in};
ghost use Rattle.boost_tracker_definition.specs.Update.{corners_of, xyxy_of, remain_inds, det_scores, det_labels};
ghost use Rattle.boost_tracker_pairs.specs.Private.{KeptBoxes, box_lists_with, Retained};

use crate::gather::{of_corners, put_four, xyxy_of};

fn keep_box(
    thresh: f32,
    score: f32,
    objects: &[f32],
    i: usize,
    w: usize,
    corners: &mut [f32],
) -> usize
    requires { (i * box_values + box_values ≤ length objects.now) × (w * 4 + 4 ≤ length corners.old) }
    ensures count { result ≡ cond (le thresh score) (w + 1) w }
    ensures cells { corners.new ≡ cond (le thresh score) (splice corners.old (w * 4) (corners_of (xyxy_of objects.now i))) corners.old }
{
    if score >= thresh {
        let at = w * 4;
        put_four(&mut corners[at..at + 4], of_corners(xyxy_of(objects, i)));
        return w + 1;
    }
    w
}

// The corners of the retained boxes go over the front of corners; how many there are.
fn retain_boxes(thresh: f32, objects: &[f32], scores: &[f32], corners: &mut [f32]) -> usize
    requires { (length scores.now ≡ boxes_in objects.now) × (length corners.old ≡ boxes_in objects.now * 4) }
    ensures { KeptBoxes thresh objects.now scores.now corners.old corners.new result }
{
    let mut w = 0;
    for i in 0..scores.len() {
        w = keep_box(thresh, scores[i], objects, i, w, corners);
    }
    w
}

fn keep_score(thresh: f32, i: usize, w: usize, scores: &mut [f32]) -> usize
    requires { (w ≤ i) × (i < length scores.old) }
    ensures count { result ≡ cond (le thresh (get_or scores.old i nan)) (w + 1) w }
    ensures cells { scores.new ≡ cond (le thresh (get_or scores.old i nan)) (set scores.old w (get_or scores.old i nan)) scores.old }
{
    let score = scores[i];
    if score >= thresh {
        scores[w] = score;
        return w + 1;
    }
    w
}

// Their scores go over the front of scores.
fn retain_scores(thresh: f32, scores: &mut [f32]) -> usize
    ensures { Pushed scores.old (det_scores scores.old (remain_inds thresh scores.old)) result scores.new }
{
    let mut w = 0;
    for i in 0..scores.len() {
        w = keep_score(thresh, i, w, scores);
    }
    w
}

fn keep_label(thresh: f32, score: f32, label: u8, w: usize, out: &mut [u8]) -> usize
    requires { w < length out.old }
    ensures count { result ≡ cond (le thresh score) (w + 1) w }
    ensures cells { out.new ≡ cond (le thresh score) (set out.old w label) out.old }
{
    if score >= thresh {
        out[w] = label;
        return w + 1;
    }
    w
}

// Their labels go over the front of out.
fn retain_labels(thresh: f32, scores: &[f32], box_labels: &[u8], out: &mut [u8]) -> usize
    requires { length scores.now ≤ length out.old }
    ensures { Pushed out.old (det_labels box_labels.now (remain_inds thresh scores.now)) result out.new }
{
    let mut w = 0;
    for i in 0..scores.len() {
        let label = labels::label_at(box_labels, i);
        w = keep_label(thresh, scores[i], label, w, out);
    }
    w
}

// The corners, the scores and the labels of the retained boxes go over the fronts; how many there are.
pub(crate) fn retain(
    thresh: f32,
    objects: &[f32],
    box_labels: &[u8],
    scores: &mut [f32],
    corners: &mut [f32],
    labels: &mut [u8],
) -> usize
    requires { (length scores.old ≡ boxes_in objects.now) × ((length corners.old ≡ boxes_in objects.now * 4) × (boxes_in objects.now ≤ length labels.old)) }
    ensures { Retained thresh (boxes_with objects.now box_labels.now) (box_lists_with scores.old corners.old labels.old) (box_lists_with scores.new corners.new labels.new) result }
{
    let kept = retain_boxes(thresh, objects, scores, corners);
    retain_labels(thresh, scores, box_labels, labels);
    retain_scores(thresh, scores);
    kept
}
