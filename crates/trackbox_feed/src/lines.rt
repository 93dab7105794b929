// The lines of a call: one for each track record that a frame put out, or the one of a refusal.
ghost use Rattle.std.specs.Prelude.{◌≡◌, ◌+◌, ◌*◌, ◌/◌, ◌≤◌, ◌<◌, length};
ghost use Rattle.records.specs.TrackRecord.{track_bytes};
ghost use Rattle.records_line.specs.Line.{line, line_bytes, refused_line};
ghost use Rattle.trackbox_feed.specs.Private.{Put, read_at, lines_in};

use records::{TrackRecord, read_track};
use records_line::{LINE_BYTES, write_line, write_refused};

// Each of these writes from `at` on and answers where it ended.
fn put_line(t: TrackRecord, text: &mut [u8], at: usize) -> usize
    requires { at + line_bytes ≤ length text.old }
    ensures put { Put at (line t) text.old result text.new }
    ensures upper_bound { result ≤ at + line_bytes }
{
    let end = at + LINE_BYTES;
    at + write_line(t, &mut text[at..end]).unwrap()
}

// Record k of the output.
fn track(out: &[u8], k: usize) -> TrackRecord
    requires { k < length out.now / track_bytes }
    ensures { result ≡ read_at out.now k }
{
    read_track(out, k).unwrap()
}

// The lines of the first n records of the output.
pub(crate) fn put_lines(out: &[u8], n: usize, text: &mut [u8]) -> usize
    requires { (n ≤ length out.now / track_bytes) × (n * line_bytes ≤ length text.old) }
    ensures { Put 0 (lines_in out.now n) text.old result text.new }
{
    let mut at = 0;
    for k in 0..n {
        at = put_line(track(out, k), text, at);
    }
    at
}

pub(crate) fn put_refused(number: u64, nth: u64, text: &mut [u8]) -> usize
    requires { line_bytes ≤ length text.old }
    ensures { Put 0 (refused_line number nth) text.old result text.new }
{
    write_refused(number, nth, text).unwrap()
}
