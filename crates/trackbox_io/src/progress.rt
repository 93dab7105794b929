// What a run does next.
ghost use Rattle.std.specs.Prelude.{◌≡◌, ◌+◌, ◌≤◌, min};
ghost use Rattle.trackbox_io.specs.Turn as Spec;

use program_io::end_of;
use trackbox_feed::{Fed, Feed};
use trackbox_progress::{Progress, later, stopped};

// More than the lines of 64 tracks and one more.
const CALL_BYTES: usize = 8192;

// Less than CALL_BYTES are left for the text of a call.
pub(crate) fn crowded(used: usize, size: usize) -> bool
    requires { used ≤ size }
    ensures { result ≡ Spec.crowded used size }
{
    size - used < CALL_BYTES
}

// The buffer of `size` bytes was filled, or the read failed.
pub(crate) fn refilled(p: Progress, size: usize, input: Option<usize>) -> Progress
    ensures { result ≡ Spec.refilled p size input }
{
    match input {
        Some(n) => Progress {
            left: p.left.saturating_sub(n as u64),
            more: size <= n,
            got: n,
            next: 0,
            ..p
        },
        None => stopped(p),
    }
}

// n more bytes of text wait; no call's text is longer than what it is lent.
fn known(p: Progress, feed: Feed, next: usize, n: usize, size: usize, going: bool) -> Progress
    ensures { result ≡ Spec.known p feed next (min (p.used + n) size) going }
{
    Progress {
        feed,
        next,
        used: end_of(p.used, n, size),
        going,
        failed: false,
        ..p
    }
}

// A record is handed on until it is taken. `size` is the text's.
pub(crate) fn answered(p: Progress, size: usize, fed: Fed) -> Progress
    ensures { result ≡ Spec.answered p size fed }
{
    let feed = p.feed;
    match fed {
        Fed::Taken(then, n) => known(p, then, later(p.next, p.got), n, size, true),
        Fed::Again(then, n) => known(p, then, p.next, n, size, true),
        Fed::Ended(n) => known(p, feed, p.next, n, size, false),
        Fed::Short => stopped(p),
    }
}
