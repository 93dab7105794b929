// A drop: judged whole, then the tracks that the list does not name are kept, by what retirement keeps its tracks with, and the places beyond them are zeroed.
ghost use Rattle.std.specs.Prelude.{◌≡◌, [], ◌∷◌, ◌≤◌, length};
ghost use Rattle.boost_tracker_table.specs.Table.{places_in};
ghost use Rattle.boost_tracker_table.specs.Lent.{table_with, call_with};
ghost use Rattle.boost_tracker_forget.specs.Forget as Spec;
ghost use Rattle.boost_tracker_forget.specs.Forget.{without, forgotten};

use crate::ids::{all_held, any_twice};
use crate::refusal::ForgetRefusal;
use boost_tracker_table::{clear_beyond, clear_labels, drop_labels, drop_tracks, places_in};
use boost_tracker_verdict::State;
use boost_tracker_verdict::sound::sound;
use labels::first_unlabelled;

// The state is the new one, or the one given where the drop is refused.
// Kept: WholeOrNotAtAll of specs/Laws.antt speaks of the state beside a refusal too, and bedside_forget hands it out.
#[derive(Clone, Copy)]
pub struct Forgotten {
    pub verdict: Result<(), ForgetRefusal>,
    pub state: State,
}

#[tactic(auto, unfolding(crate::specs::Forget::verdict, crate::specs::Forget::first_of))]
fn forget_verdict(
    state: State,
    floats: &[f32],
    counters: &[u64],
    labels: &[u8],
    ids: &[u64],
) -> Result<(), ForgetRefusal>
    ensures { result ≡ Spec.verdict state (table_with floats.now counters.now labels.now) ids.now }
{
    if !sound(state, floats, counters, labels.len()) {
        return Err(ForgetRefusal::TableNotSound);
    }
    let held = state.count;
    if first_unlabelled(labels, held) < held {
        return Err(ForgetRefusal::TrackNotLabelled);
    }
    if any_twice(ids) {
        return Err(ForgetRefusal::IdTwice);
    }
    if !all_held(floats, counters, held, ids) {
        return Err(ForgetRefusal::IdNotHeld);
    }
    Ok(())
}

// The drop of an accepted list that is not empty.
fn drop_set(
    state: State,
    floats: &mut [f32],
    counters: &mut [u64],
    labels: &mut [u8],
    ids: &[u64],
) -> State
    requires { state.count ≤ places_in (length floats.old) (length counters.old) (length labels.old) }
    ensures { call_with result (table_with floats.new counters.new labels.new)
        ≡ without state (table_with floats.old counters.old labels.old) ids.now }
{
    let places = places_in(floats.len(), counters.len(), labels.len());
    drop_labels(floats, counters, labels, state.count, ids);
    let count = drop_tracks(floats, counters, state.count, ids);
    clear_beyond(floats, counters, count, places);
    clear_labels(labels, count, places);
    State {
        count,
        last: state.last,
        frames: state.frames,
    }
}

// Drops each track whose id is in the list, or none.
pub fn forget_set(
    state: State,
    floats: &mut [f32],
    counters: &mut [u64],
    labels: &mut [u8],
    ids: &[u64],
) -> Forgotten
    ensures { call_with result (table_with floats.new counters.new labels.new)
        ≡ forgotten state (table_with floats.old counters.old labels.old) ids.now }
{
    let verdict = forget_verdict(state, floats, counters, labels, ids);
    if verdict.is_err() || ids.is_empty() {
        return Forgotten { verdict, state };
    }
    let state = drop_set(state, floats, counters, labels, ids);
    Forgotten { verdict, state }
}

// The set of one.
pub fn forget(
    state: State,
    floats: &mut [f32],
    counters: &mut [u64],
    labels: &mut [u8],
    id: u64,
) -> Forgotten
    ensures { call_with result (table_with floats.new counters.new labels.new)
        ≡ forgotten state (table_with floats.old counters.old labels.old) (id ∷ []) }
{
    forget_set(state, floats, counters, labels, &[id])
}
