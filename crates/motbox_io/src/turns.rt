// One turn after another until the text has ended, a line was turned away, or a call of the system failed.
ghost use Rattle.std.specs.Prelude.{◌≡◌, ◌≤◌, length};
ghost use Rattle.motbox_io.specs.Run.{Ran};
ghost use Rattle.motbox_io.specs.Turn as Spec;

use crate::calls::{flush, read};
use crate::lines::{has_line, line_length, shift};
use crate::progress::{Progress, answered, crowded, done, dry, emptied, refilled, start};
use crate::words::explain;
use mot_line::mot_line;
use program_io::Streams;
use records::BOX_BYTES;
use std::io::Stderr;

const INPUT_BYTES: usize = 65536;

// The whole records that as many bytes have room for.
const OUTPUT_BYTES: usize = INPUT_BYTES / BOX_BYTES * BOX_BYTES;

// Writes out what waits where it is due: before the input is read on, so that nothing waits where a read fails.
fn empty(streams: Streams, p: Progress, due: bool, out: &[u8]) -> Progress
    requires { p.used ≤ length out.now }
    ensures { Spec.Empties p due result }
{
    if !due {
        return p;
    }
    emptied(p, flush(streams, p.used, out))
}

// Reads on behind the bytes that are left, which go to the front.
fn read_on(streams: Streams, p: Progress, dry: bool, input: &mut [u8]) -> Progress
    requires { Spec.Stands p (length input.old) }
    ensures { Spec.Fills p dry result input.old input.new }
{
    if !(p.going & dry) {
        return p;
    }
    let next = p.next;
    let got = p.got;
    let kept = got - next;
    shift(input, next, got);
    let size = input.len();
    refilled(p, kept, size, read(streams, &mut input[kept..]))
}

// Takes the next line, or ends where none is left.
fn take(p: Progress, input: &[u8], out: &mut [u8]) -> Progress
    requires fact_1 { Spec.Stands p (length input.now) }
    requires fact_2 { p.used ≤ length out.old }
    ensures { Spec.leaving result out.new ≡ Spec.taken p input.now out.old }
{
    if !p.going {
        return p;
    }
    let next = p.next;
    let got = p.got;
    let rest = &input[next..got];
    let n = line_length(rest);
    if n == 0 {
        return done(p);
    }
    let used = p.used;
    let size = out.len();
    let answer = mot_line(&rest[..n], p.previous, &mut out[used..]);
    answered(p, n, size, answer)
}

fn turn(streams: Streams, p: Progress, input: &mut [u8], out: &mut [u8]) -> Progress
    requires fact_1 { Spec.Stands p (length input.old) }
    requires fact_2 { p.used ≤ length out.old }
    ensures { Spec.Turned p result input.old input.new out.old out.new }
{
    let next = p.next;
    let got = p.got;
    let dry = dry(p, input.len(), has_line(&input[next..got]));
    let due = crowded(p.used, out.len()) | dry;
    let ready = read_on(streams, empty(streams, p, due, out), dry, input);
    take(ready, input, out)
}

// Says why a line was turned away, but where a call failed.
fn tell(errors: Stderr, p: Progress, input: &[u8])
    requires { Spec.Stands p (length input.now) }
{
    if p.failed | (p.refusal == 0) {
        return;
    }
    let next = p.next;
    let got = p.got;
    let rest = &input[next..got];
    let n = line_length(rest);
    explain(errors, p.refusal, p.lines, &rest[..n], p.previous);
}

// Turns, and at the end what still waits is written out.
// A proved loop has to end: the count of turns is one that no run uses up.
pub fn run(streams: Streams) -> Progress
    ensures { Ran result }
{
    let mut input = [0u8; INPUT_BYTES];
    let mut out = [0u8; OUTPUT_BYTES];
    let mut now = start();
    for _made in 0..u64::MAX {
        if !now.going {
            break;
        }
        now = turn(streams, now, &mut input, &mut out);
    }
    let last = empty(streams, now, !now.failed, &out);
    tell(streams.errors, last, &input);
    last
}
