// One turn after another until the stream has ended, was turned down, or a call failed.
ghost use Rattle.std.specs.Prelude.{◌≤◌, length};
ghost use Rattle.program_io.specs.Input.{Within};
ghost use Rattle.trackbox_io.specs.Turn as Spec;
ghost use Rattle.trackbox_io.specs.Turn.{arrays};

use crate::calls::{flush, read_input};
use crate::progress::{answered, crowded, refilled};
use program_io::Streams;
use records::BOX_BYTES;
use trackbox_feed::{
    LENT_BOX_LABELS, LENT_BOXES, LENT_COUNTERS, LENT_DOUBLES, LENT_FLOATS, LENT_LABELS,
    LENT_OUTPUT, LENT_SINGLES,
};
use trackbox_progress::{Progress, emptied, item, needed, spent, start};

const TEXT_BYTES: usize = 65536;

// Whole records, so that none lies across the end of the buffer.
const INPUT_BYTES: usize = TEXT_BYTES / BOX_BYTES * BOX_BYTES;

// Writes out what waits where the text has little room, and before the input is read on: so nothing waits where a read fails.
fn empty(streams: Streams, p: Progress, text: &[u8]) -> Progress
    requires { p.used ≤ length text.now }
    ensures { Spec.Empties p result (length text.now) }
{
    let used = p.used;
    if !(crowded(used, text.len()) | spent(p)) {
        return p;
    }
    emptied(p, flush(streams, used, text))
}

// Reads at most `most` bytes, and answers how many it read. None: the read failed.
fn fill(streams: Streams, most: u64, input: &mut [u8]) -> Option<usize>
    ensures { Within (length input.old) result }
{
    let want = most.min(input.len() as u64) as usize;
    read_input(streams, &mut input[..want])
}

// Reads on where the buffer's records are taken.
fn read_on(streams: Streams, p: Progress, input: &mut [u8]) -> Progress
    ensures { Spec.Fills p result input.old input.new }
{
    if !(p.going & spent(p)) {
        return p;
    }
    let size = input.len();
    refilled(p, size, fill(streams, p.left, input))
}

// Hands a record or the end on. A frame is lent of the work slices what it needs: every lent cell is cleared.
fn hand(
    p: Progress,
    input: &[u8],
    floats: &mut [f32],
    counters: &mut [u64],
    labels: &mut [u8],
    boxes: &mut [f32],
    box_labels: &mut [u8],
    out: &mut [u8],
    work64: &mut [f64],
    work32: &mut [f32],
    text: &mut [u8],
) -> Progress
    requires stands { Spec.Stands p }
    requires sizes { Spec.Sizes (arrays input.now text.old floats.old counters.old labels.old boxes.old box_labels.old out.old work64.old work32.old) }
    ensures { Spec.Handed p result
        (arrays input.now text.old floats.old counters.old labels.old boxes.old box_labels.old out.old work64.old work32.old)
        (arrays input.now text.new floats.new counters.new labels.new boxes.new box_labels.new out.new work64.new work32.new) }
{
    if !p.going {
        return p;
    }
    let used = p.used;
    let size = text.len();
    let cells = needed(p.feed.table.count, p.feed.opened.boxes);
    let cells32 = 4 * cells;
    let feed = p.feed;
    let fed = trackbox_feed::take(
        feed,
        item(p.next, p.got, input),
        floats,
        counters,
        labels,
        boxes,
        box_labels,
        out,
        &mut work64[..cells],
        &mut work32[..cells32],
        &mut text[used..],
    );
    answered(p, size, fed)
}

fn turn(
    streams: Streams,
    p: Progress,
    input: &mut [u8],
    text: &mut [u8],
    floats: &mut [f32],
    counters: &mut [u64],
    labels: &mut [u8],
    boxes: &mut [f32],
    box_labels: &mut [u8],
    out: &mut [u8],
    work64: &mut [f64],
    work32: &mut [f32],
) -> Progress
    requires stands { Spec.Stands p }
    requires sizes { Spec.Sizes (arrays input.old text.old floats.old counters.old labels.old boxes.old box_labels.old out.old work64.old work32.old) }
    ensures { Spec.Turned p result
        (arrays input.old text.old floats.old counters.old labels.old boxes.old box_labels.old out.old work64.old work32.old)
        (arrays input.new text.new floats.new counters.new labels.new boxes.new box_labels.new out.new work64.new work32.new) }
{
    let ready = read_on(streams, empty(streams, p, text), input);
    hand(
        ready, input, floats, counters, labels, boxes, box_labels, out, work64, work32, text,
    )
}

// Writes out what still waits, and answers how many bytes of the stream were not read. None: this or another call failed.
fn end(streams: Streams, p: Progress, bytes: u64, text: &[u8]) -> Option<u64>
    requires { p.used ≤ length text.now }
    ensures { Spec.Ends p bytes result }
{
    if p.failed {
        return None;
    }
    if !flush(streams, p.used, text) {
        return None;
    }
    Some(p.left.min(bytes))
}

// A stream of at most so many bytes. Some: the stream has ended or was turned down, and what it prints is written; so many of its bytes were not read.
// None: a read or a write failed, and standard error has a line that says so.
// A proved loop has to end: the count of turns is one that no run uses up.
pub fn run(streams: Streams, bytes: u64) -> Option<u64>
    ensures { Spec.Leaves bytes result }
{
    let mut input = [0u8; INPUT_BYTES];
    let mut text = [0u8; TEXT_BYTES];
    let mut floats = [0.0f32; LENT_FLOATS];
    let mut counters = [0u64; LENT_COUNTERS];
    let mut labels = [0u8; LENT_LABELS];
    let mut boxes = [0.0f32; LENT_BOXES];
    let mut box_labels = [0u8; LENT_BOX_LABELS];
    let mut out = [0u8; LENT_OUTPUT];
    let mut work64 = [0.0f64; LENT_DOUBLES];
    let mut work32 = [0.0f32; LENT_SINGLES];
    let mut now = start(bytes);
    'turns: for _ in 0..u64::MAX {
        if !now.going {
            break;
        }
        now = turn(
            streams,
            now,
            &mut input,
            &mut text,
            &mut floats,
            &mut counters,
            &mut labels,
            &mut boxes,
            &mut box_labels,
            &mut out,
            &mut work64,
            &mut work32,
        );
    }
    end(streams, now, bytes, &text)
}
