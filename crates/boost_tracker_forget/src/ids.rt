// A list of ids: whether one of them stands twice, and whether all are held. 101 comes before 102, so each id is looked for in the list before any is looked for in the table.
ghost use Rattle.std.specs.Prelude.{◌≡◌};
ghost use Rattle.laws.specs.Elem.{elem};
ghost use Rattle.laws.specs.Every.{every};
ghost use Rattle.boost_tracker_table.specs.Table.{tracks, ids_of};
ghost use Rattle.boost_tracker_forget.specs.Forget.{twice};

use boost_tracker_table::{listed, load, placed};

// Each id is looked for before its place: what stands behind the first that is there is not read, however long the list.
pub(crate) fn any_twice(ids: &[u64]) -> bool
    ensures { result ≡ twice ids.now }
{
    for (i, id) in ids.iter().enumerate() {
        if listed(&ids[..i], *id) {
            return true;
        }
    }
    false
}

fn id_held(floats: &[f32], counters: &[u64], held: usize, id: u64) -> bool
    ensures { result ≡ elem id (ids_of (tracks floats.now counters.now held)) }
{
    let n = placed(floats.len(), counters.len(), held);
    for i in 0..n {
        if id == load(floats, counters, held, i).id {
            return true;
        }
    }
    false
}

pub(crate) fn all_held(floats: &[f32], counters: &[u64], held: usize, ids: &[u64]) -> bool
    ensures { result ≡ every (λ id. elem id (ids_of (tracks floats.now counters.now held))) ids.now }
{
    for id in ids {
        if !id_held(floats, counters, held, *id) {
            return false;
        }
    }
    true
}
