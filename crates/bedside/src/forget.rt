// Dropping tracks.
ghost use Rattle.std.specs.Prelude.{◌≡◌, [], ◌∷◌};
ghost use Rattle.boost_tracker_table.specs.Lent.{table_with, call_with};
ghost use Rattle.boost_tracker_forget.specs.Forget.{forgotten};
ghost use Rattle.bedside_answers.specs.Forget.{call_in_c};

use bedside_answers::forget::ForgetAnswer;
use boost_tracker_verdict::State;

#[unsafe(no_mangle)]
pub extern "C" fn bedside_forget(
    state: State,
    floats: &mut [f32],
    counters: &mut [u64],
    labels: &mut [u8],
    id: u64,
) -> ForgetAnswer
    ensures { call_with result (table_with floats.new counters.new labels.new)
        ≡ call_in_c (forgotten state (table_with floats.old counters.old labels.old) (id ∷ [])) }
{
    ForgetAnswer::from(boost_tracker_forget::forget(state, floats, counters, labels, id))
}

#[unsafe(no_mangle)]
pub extern "C" fn bedside_forget_set(
    state: State,
    floats: &mut [f32],
    counters: &mut [u64],
    labels: &mut [u8],
    ids: &[u64],
) -> ForgetAnswer
    ensures { call_with result (table_with floats.new counters.new labels.new)
        ≡ call_in_c (forgotten state (table_with floats.old counters.old labels.old) ids.now) }
{
    ForgetAnswer::from(boost_tracker_forget::forget_set(state, floats, counters, labels, ids))
}
