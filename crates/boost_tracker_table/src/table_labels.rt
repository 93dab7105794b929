// The labels of the table, a byte a place: those of the tracks that stay, and zero beyond them.
ghost use Rattle.std.specs.Prelude.{◌≡◌, Bool};
ghost use Rattle.boost_tracker_table.specs.Table.{Track, unlisted, labels_kept, labels_retired, labels_emptied};
ghost use Rattle.boost_tracker_table.specs.Private.{TellsOf};

use crate::ids::listed;
use crate::place::track_at;
use crate::table::placed;
use strack::strack::KalmanBoxTracker;

// Keeps the labels of the held tracks for which `stays` is true, in order.
fn keep_labels<F: Fn(KalmanBoxTracker) -> bool>(
    floats: &[f32],
    counters: &[u64],
    labels: &mut [u8],
    held: usize,
    stays: F,
)
    requires { F.IsAlwaysCallable stays }
    ensures { (p : Track → Bool) → TellsOf (F.post stays) p → labels.new ≡ labels_kept p floats.now counters.now held labels.old }
{
    let n = placed(floats.len(), counters.len(), held.min(labels.len()));
    let mut w = 0;
    for i in 0..n {
        if stays(track_at(floats, counters, i)) {
            labels[w] = labels[i];
            w += 1;
        }
    }
}

// Keeps the labels of the held tracks whose time since update is at most `oldest`, in order. To be called before `retire`, which moves the tracks.
pub fn retire_labels(floats: &[f32], counters: &[u64], labels: &mut [u8], held: usize, oldest: u64)
    ensures { labels.new ≡ labels_retired floats.now counters.now held oldest labels.old }
{
    keep_labels(floats, counters, labels, held, |t| t.since <= oldest);
}

// Keeps the labels of the held tracks that the list does not name, in order. To be called before `drop_tracks`, which moves the tracks.
pub fn drop_labels(floats: &[f32], counters: &[u64], labels: &mut [u8], held: usize, ids: &[u64])
    ensures { labels.new ≡ labels_kept (unlisted ids.now) floats.now counters.now held labels.old }
{
    keep_labels(floats, counters, labels, held, |t| !listed(ids, t.id));
}

// Zeros the labels of the places beyond the held tracks; labels past the places are not written.
pub fn clear_labels(labels: &mut [u8], held: usize, places: usize)
    ensures { labels.new ≡ labels_emptied held places labels.old }
{
    let end = places.min(labels.len());
    labels[held.min(end)..end].fill(0);
}
