// The lines that are printed: one for an emitted track, and one for a refusal.
ghost use Rattle.std.specs.Prelude.{◌+◌, ◌≤◌, length};
ghost use Rattle.records_line.specs.Line.{line, five_hex, refused_line};
ghost use Rattle.records.specs.Written.{WritesText, Put};

use super::text::{places, put_decimal, put_hex};
use records::{TrackRecord, put_bytes};

// The most bytes that a track's line can have: two numbers of 20 digits, five of 8, and seven separators.
pub const LINE_BYTES: usize = 87;

fn put_five_hex(out: &mut [u8], at: usize, a: f32, b: f32, c: f32, d: f32, e: f32) -> usize
    requires { at + 45 ≤ length out.old }
    ensures { Put at (five_hex a b c d e) out.old result out.new }
{
    let at1 = put_hex(out, at, a, b' ');
    let at2 = put_hex(out, at1, b, b' ');
    let at3 = put_hex(out, at2, c, b' ');
    let at4 = put_hex(out, at3, d, b' ');
    put_hex(out, at4, e, b'\n')
}

fn put_line(out: &mut [u8], t: TrackRecord) -> usize
    requires { length (line t) ≤ length out.old }
    ensures { Put 0 (line t) out.old result out.new }
{
    let id = put_decimal(out, 0, t.frame as u64, b' ');
    let floats = put_decimal(out, id, t.id, b' ');
    put_five_hex(out, floats, t.left, t.top, t.width, t.height, t.confidence)
}

// Writes the line of an emitted track at the front of out.
pub fn write_line(t: TrackRecord, out: &mut [u8]) -> Option<usize>
    ensures { WritesText (line t) out.old result out.new }
{
    let n = places(t.frame as u64) + places(t.id) + 47;
    if out.len() < n {
        return None;
    }
    put_line(out, t);
    Some(n)
}

fn put_refused(out: &mut [u8], number: u64, nth: u64) -> usize
    requires { length (refused_line number nth) ≤ length out.old }
    ensures { Put 0 (refused_line number nth) out.old result out.new }
{
    let at1 = put_bytes(out, 0, b"refused ");
    let at2 = put_decimal(out, at1, number, b' ');
    let at3 = put_bytes(out, at2, b"record ");
    put_decimal(out, at3, nth, b'\n')
}

// Writes the line of a refusal at the front of out: its number, and the record it names, counted from 1.
pub fn write_refused(number: u64, nth: u64, out: &mut [u8]) -> Option<usize>
    ensures { WritesText (refused_line number nth) out.old result out.new }
{
    let n = places(number) + places(nth) + 17;
    if out.len() < n {
        return None;
    }
    put_refused(out, number, nth);
    Some(n)
}
