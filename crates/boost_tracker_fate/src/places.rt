// What the lists of the pairs say of one box, and what is told of it.
ghost use Rattle.std.specs.Prelude.{◌≡◌, get_or};
ghost use Rattle.boost_tracker_fate.specs.Fate.{place_in};
ghost use Rattle.boost_tracker_fate.specs.Private.{lot_by, track_of, place_of, fate_by, told_by};

use crate::kinds::{Explanation, Fate, Lot, Partner};

// The first place of k in a list, or its length.
// Kept: the length for none, as `place_in` of the definition has it.
fn place_in(list: &[usize], k: usize) -> usize
    ensures { result ≡ place_in k list.now }
{
    list.iter().position(|&x| k == x).unwrap_or(list.len())
}

// Number i of a list, or 0 where there is none.
fn number_at(list: &[usize], i: usize) -> usize
    ensures { result ≡ get_or list.now i 0 }
{
    list.get(i).copied().unwrap_or(0)
}

// Of the retained box d, or of a box that is not retained. The rejected pairs are the last of both unmatched lists.
pub fn lot_of(
    retained: bool,
    d: usize,
    rejected: usize,
    pair_boxes: &[usize],
    pair_tracks: &[usize],
    unmatched: &[usize],
    left: &[usize],
) -> Lot
    ensures { result ≡ lot_by retained d rejected pair_boxes.now pair_tracks.now unmatched.now left.now }
{
    if !retained {
        return Lot::Under;
    }
    let pair = place_in(pair_boxes, d);
    if pair < pair_boxes.len() {
        return Lot::Paired(number_at(pair_tracks, pair));
    }
    let place = place_in(unmatched, d);
    let alone = unmatched.len().saturating_sub(rejected);
    if place < alone {
        return Lot::Alone(place);
    }
    let at = left.len().saturating_sub(rejected) + (place - alone);
    Lot::Refused(number_at(left, at), place)
}

// The track of its pair, if it has one.
pub fn track_of(lot: Lot) -> Option<usize>
    ensures { result ≡ track_of lot }
{
    match lot {
        Lot::Paired(t) | Lot::Refused(t, _) => Some(t),
        Lot::Under | Lot::Alone(_) => None,
    }
}

// Its place in the unmatched list, or 0 where it is not in it.
// Kept: 0 for none, as `place_of` of the definition has it.
pub fn place_of(lot: Lot) -> usize
    ensures { result ≡ place_of lot }
{
    match lot {
        Lot::Refused(_, place) | Lot::Alone(place) => place,
        Lot::Under | Lot::Paired(_) => 0,
    }
}

// By the ids of the track of its pair, and of the track that starts at its place.
fn fate_of(lot: Lot, held: u64, started: u64) -> Fate
    ensures { result ≡ fate_by held started lot }
{
    match lot {
        Lot::Under => Fate::UnderThreshold,
        Lot::Paired(_) => Fate::Matched(held),
        Lot::Refused(_, _) => Fate::Rejected(started),
        Lot::Alone(_) => Fate::Started(started),
    }
}

pub fn told(
    lot: Lot,
    partner: Partner,
    started: u64,
    score: f32,
    score_dlo: f32,
    score_duo: f32,
) -> Explanation
    ensures { result ≡ told_by lot partner started score score_dlo score_duo }
{
    Explanation {
        fate: fate_of(lot, partner.id, started),
        score,
        score_dlo,
        score_duo,
        partner,
    }
}
