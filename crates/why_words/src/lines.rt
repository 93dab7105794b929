// The lines, each from its first byte to its line feed.
ghost use Rattle.std.specs.Prelude.{◌≡◌, ◌+◌, ◌≤◌, length, nat_le};
ghost use Rattle.assoc_boxes.specs.Overlap.{ratio};
ghost use Rattle.records.specs.Written.{Writes};
ghost use Rattle.why_words.specs.Words as Words;
ghost use Rattle.why_words.specs.Private.{Puts};

use crate::puts::{put_count, put_float, put_word};
use boost_tracker_why::{Explanation, Fate, Partner};

// No line is longer.
pub const LINE_MOST: usize = 400;

fn put_head(text: &mut [u8], frame: u64, index: u64) -> usize
    requires { 53 ≤ length text.old }
    ensures { Puts 53 0 (Words.head frame index) text.old result text.new }
{
    let at1 = put_count(text, 0, b"frame ", frame);
    let at2 = put_count(text, at1, b" box ", index);
    put_word(text, at2, b": ")
}

// The share of the areas, also under unequal labels, where the IoU is 0.
fn share(intersection: f32, union: f32) -> f32
    ensures { result ≡ ratio intersection union }
{
    if union > 0.0 {
        return intersection / union;
    }
    0.0
}

fn put_label(text: &mut [u8], at: usize, alike: bool) -> usize
    requires { at + 15 ≤ length text.old }
    ensures { Puts 15 at (Words.label_text alike) text.old result text.new }
{
    if alike {
        return at;
    }
    put_word(text, at, b", label differs")
}

fn put_overlap(text: &mut [u8], at: usize, p: Partner) -> usize
    requires { at + 110 ≤ length text.old }
    ensures { Puts 110 at (Words.overlap_text p) text.old result text.new }
{
    let of = put_float(text, at, b": overlap ", share(p.intersection, p.union));
    let over = put_float(text, of, b" of ", p.intersection);
    let label = put_float(text, over, b" over ", p.union);
    put_label(text, label, p.alike)
}

fn put_matched(text: &mut [u8], at: usize, id: u64, p: Partner) -> usize
    requires { at + 144 ≤ length text.old }
    ensures { Puts 144 at (Words.matched_text id p) text.old result text.new }
{
    let overlap = put_count(text, at, b"matched to id ", id);
    put_overlap(text, overlap, p)
}

fn put_started(text: &mut [u8], at: usize, id: u64) -> usize
    requires { at + 46 ≤ length text.old }
    ensures { Puts 46 at (Words.started_text id) text.old result text.new }
{
    let alone = put_count(text, at, b"started as id ", id);
    put_word(text, alone, b", in no pair")
}

fn put_rejected(text: &mut [u8], at: usize, id: u64, p: Partner) -> usize
    requires { at + 193 ≤ length text.old }
    ensures { Puts 193 at (Words.rejected_text id p) text.old result text.new }
{
    let pair = put_count(text, at, b"started as id ", id);
    let overlap = put_count(text, pair, b", rejected as a pair with id ", p.id);
    put_overlap(text, overlap, p)
}

fn put_fate(text: &mut [u8], at: usize, fate: Fate, p: Partner) -> usize
    requires { at + 193 ≤ length text.old }
    ensures { Puts 193 at (Words.fate_text fate p) text.old result text.new }
{
    match fate {
        Fate::Matched(id) => put_matched(text, at, id, p),
        Fate::Started(id) => put_started(text, at, id),
        Fate::UnderThreshold => put_word(text, at, b"under the score threshold"),
        Fate::Rejected(id) => put_rejected(text, at, id, p),
    }
}

fn put_scores(text: &mut [u8], at: usize, given: f32, dlo: f32, duo: f32) -> usize
    requires { at + 128 ≤ length text.old }
    ensures { Puts 128 at (Words.scores_text given dlo duo) text.old result text.new }
{
    let at1 = put_float(text, at, b"; score ", given);
    let at2 = put_float(text, at1, b", ", dlo);
    let at3 = put_float(text, at2, b" after the DLO boost, ", duo);
    put_word(text, at3, b" after the DUO boost\n")
}

fn put_explanation(text: &mut [u8], frame: u64, index: u64, e: Explanation) -> usize
    requires { 400 ≤ length text.old }
    ensures { Puts 374 0 (Words.explanation_line frame index e) text.old result text.new }
{
    let fate = e.fate;
    let partner = e.partner;
    let told = put_head(text, frame, index);
    let scores = put_fate(text, told, fate, partner);
    put_scores(text, scores, e.score, e.score_dlo, e.score_duo)
}

// What became of a box of a frame, at the front of the text, and how many bytes that is; None and nothing written where fewer than LINE_MOST bytes are lent.
pub fn write_explanation(frame: u64, index: u64, e: Explanation, text: &mut [u8]) -> Option<usize>
    ensures { Writes (nat_le Words.line_most (length text.old)) 0 (Words.explanation_line frame index e) text.old result text.new }
{
    if text.len() < LINE_MOST {
        return None;
    }
    Some(put_explanation(text, frame, index, e))
}

fn put_no_box(text: &mut [u8], frame: u64, index: u64, boxes: u64) -> usize
    requires { 400 ≤ length text.old }
    ensures { Puts 118 0 (Words.no_box_line frame index boxes) text.old result text.new }
{
    let at1 = put_count(text, 0, b"refused 81 frame ", frame);
    let at2 = put_count(text, at1, b" box ", index);
    let at3 = put_count(text, at2, b": no such box; boxes in the frame: ", boxes);
    put_word(text, at3, b"\n")
}

// Kept: with write_explanation only the test of the room is the same; a closure that writes the line would need the clause of each line again.
// That a frame of so many boxes has no box of this index, and how many bytes that is; None and nothing written where fewer than LINE_MOST bytes are lent.
pub fn write_no_box(frame: u64, index: u64, boxes: u64, text: &mut [u8]) -> Option<usize>
    ensures { Writes (nat_le Words.line_most (length text.old)) 0 (Words.no_box_line frame index boxes) text.old result text.new }
{
    if text.len() < LINE_MOST {
        return None;
    }
    Some(put_no_box(text, frame, index, boxes))
}
