// The labels of boxes and tracks, a byte each: 1 sleeper, 2 partner, 3 staff. Whether one is a label, whether two are alike, and the cells of a matrix where they are not.
#![tactic(auto)]

ghost use Rattle.std.specs.Prelude.{◌≡◌};
ghost use Rattle.laws.specs.Scan.{lowest};
ghost use Rattle.laws.specs.Every.{every};
ghost use Rattle.labels.specs.Label as Label;

use cells::fill;

#[tactic(auto, unfolding(crate::specs::Label::is_label))]
pub fn is_label(label: u8) -> bool
    ensures { result ≡ Label.is_label label }
{
    (1 <= label) & (label <= 3)
}

#[tactic(auto, unfolding(crate::specs::Label::same_label))]
pub fn same_label(a: u8, b: u8) -> bool
    ensures { result ≡ Label.same_label a b }
{
    a == b
}

// Label i, or 0 where there is none.
pub fn label_at(labels: &[u8], i: usize) -> u8
    ensures { result ≡ Label.label_at labels.now i }
{
    labels.get(i).copied().unwrap_or(0)
}

// The first of n labels that is none of the three, or n.
// Kept: n for none, as `lowest` of the definition has it.
pub fn first_unlabelled(labels: &[u8], n: usize) -> usize
    ensures { result ≡ lowest (Label.unlabelled_at labels.now) n }
{
    for i in 0..n {
        if !is_label(label_at(labels, i)) {
            return i;
        }
    }
    n
}

// The loop has one way out, so that the compiler compares many labels at a time.
fn all_alike(label: u8, labels: &[u8]) -> bool
    ensures { result ≡ every (Label.same_label label) labels.now }
{
    let mut all = true;
    for other in labels {
        all = all & same_label(label, *other);
    }
    all
}

fn set_each(label: u8, labels: &[u8], value: f32, row: &mut [f32])
    ensures { row.new ≡ Label.unlike_set label labels.now value row.old }
{
    fill(
        row,
        |j, cell| if same_label(label, label_at(labels, j)) {
            cell
        } else {
            value
        },
    );
}

// Puts `value` into the cells of a row whose track has another label than the box. Most rows have no unlike cell, and
// are not gone through.
pub fn set_unlike(label: u8, labels: &[u8], value: f32, row: &mut [f32])
    ensures { row.new ≡ Label.unlike_set label labels.now value row.old }
{
    let n = row.len();
    if labels.len() < n {
        set_each(label, labels, value, row);
        return;
    }
    let labels = &labels[..n];
    if !all_alike(label, labels) {
        set_each(label, labels, value, row);
    }
}
