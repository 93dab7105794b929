// Where a run stands, and what it does next.
ghost use Rattle.std.specs.Prelude.{◌≡◌, ◌≤◌, length};
ghost use Rattle.trackbox_progress.specs.Progress as Spec;

use records::{BOX_BYTES, read_box};
use trackbox_feed::{Feed, Item, LENT_DOUBLES};

// What is known between two turns.
#[derive(Clone, Copy, Debug, PartialEq, Eq)]
pub struct Progress {
    pub feed: Feed,
    // bytes of the stream that are not read yet
    pub left: u64,
    // false once the stream's last bytes are read
    pub more: bool,
    // bytes in the buffer
    pub got: usize,
    // the buffer's record that is handed on next
    pub next: usize,
    // bytes at the front of the text that are not written out yet
    pub used: usize,
    // false once nothing follows
    pub going: bool,
    // a call failed
    pub failed: bool,
}

pub fn start(bytes: u64) -> Progress
    ensures { result ≡ Spec.start bytes }
{
    Progress {
        feed: trackbox_feed::start(),
        left: bytes,
        more: true,
        got: 0,
        next: 0,
        used: 0,
        going: true,
        failed: false,
    }
}

// The buffer's records are taken, and more may follow.
pub fn spent(p: Progress) -> bool
    ensures { result ≡ Spec.spent p }
{
    (p.got / BOX_BYTES <= p.next) & p.more
}

pub fn stopped(p: Progress) -> Progress
    ensures { result ≡ Spec.stopped p }
{
    Progress {
        going: false,
        failed: true,
        ..p
    }
}

// What waited is written out, or not.
pub fn emptied(p: Progress, written: bool) -> Progress
    ensures { result ≡ Spec.emptied p written }
{
    if written {
        Progress { used: 0, ..p }
    } else {
        stopped(p)
    }
}

// The record behind this one.
pub fn later(next: usize, got: usize) -> usize
    ensures { result ≡ Spec.later next got }
{
    if next < got / BOX_BYTES {
        return next + 1;
    }
    next
}

// Record `next` of the first `got` bytes; behind the last whole one the end, with how many bytes are left.
pub fn item(next: usize, got: usize, input: &[u8]) -> Item
    requires { got ≤ length input.now }
    ensures { result ≡ Spec.item_at next got input.now }
{
    match read_box(&input[..got], next) {
        Some(r) => Item::Record(r),
        None => Item::End(got % BOX_BYTES),
    }
}

// n × n, n the larger of the held tracks and the open frame's boxes, or all 64 × 64.
pub fn needed(held: usize, boxes: usize) -> usize
    ensures { Spec.Needed held boxes result }
{
    let n = held.max(boxes);
    if 64 < n {
        return LENT_DOUBLES;
    }
    n * n
}
