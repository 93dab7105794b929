// Where a run stands, and what it does next.
ghost use Rattle.std.specs.Prelude.{◌≡◌, ◌≤◌};
ghost use Rattle.motbox_io.specs.Text as Text;
ghost use Rattle.motbox_io.specs.Turn as Spec;

use mot_line::Refusal;
use program_io::end_of;
use records::BOX_BYTES;

// What is known between two turns.
#[derive(Clone, Copy)]
pub struct Progress {
    // the frame number of the last record, 0 before the first
    pub previous: u32,
    // lines that are read
    pub lines: u64,
    // bytes in the buffer
    pub got: usize,
    // where the next line starts
    pub next: usize,
    // bytes of records that are not written out yet
    pub used: usize,
    // false once the input's last bytes are in the buffer
    pub more: bool,
    // false once nothing follows
    pub going: bool,
    // a call of the system failed
    pub failed: bool,
    // why the line behind those that are read was turned away, or 0
    pub refusal: u32,
}

pub(crate) fn start() -> Progress
    ensures { result ≡ Spec.start }
{
    Progress {
        previous: 0,
        lines: 0,
        got: 0,
        next: 0,
        used: 0,
        more: true,
        going: true,
        failed: false,
        refusal: 0,
    }
}

// There is no room for another record.
pub(crate) fn crowded(used: usize, size: usize) -> bool
    requires { used ≤ size }
    ensures { result ≡ Spec.crowded used size }
{
    size - used < BOX_BYTES
}

// The next line is not whole in the buffer, and more of it can be read: a line that fills the buffer is too long to be one.
pub(crate) fn dry(p: Progress, size: usize, whole: bool) -> bool
    ensures { result ≡ Spec.dry p size whole }
{
    (p.more & !whole) & !((p.next == 0) & (size <= p.got))
}

// The number of the line behind so many; the largest u64 stays.
pub(crate) fn later(lines: u64) -> u64
    ensures { result ≡ Text.later lines }
{
    lines.saturating_add(1)
}

fn stopped(p: Progress) -> Progress
    ensures { result ≡ Spec.stopped p }
{
    Progress {
        going: false,
        failed: true,
        ..p
    }
}

// What waited is written out, or not.
pub(crate) fn emptied(p: Progress, written: bool) -> Progress
    ensures { result ≡ Spec.emptied p written }
{
    if !written {
        return stopped(p);
    }
    Progress { used: 0, ..p }
}

// The buffer of `size` bytes was filled behind the `kept` ones that were left, or the read failed.
pub(crate) fn refilled(p: Progress, kept: usize, size: usize, input: Option<usize>) -> Progress
    ensures { result ≡ Spec.refilled p kept size input }
{
    let Some(n) = input else {
        return stopped(p);
    };
    let got = end_of(kept, n, size);
    Progress {
        got,
        next: 0,
        more: size <= got,
        ..p
    }
}

// All lines are read.
pub(crate) fn done(p: Progress) -> Progress
    ensures { result ≡ Spec.done p }
{
    Progress { going: false, ..p }
}

// A line of n bytes was read or turned away. `size` is what the records have room for.
pub(crate) fn answered(p: Progress, n: usize, size: usize, answer: Result<u32, Refusal>) -> Progress
    ensures { result ≡ Spec.answered p n size answer }
{
    match answer {
        Ok(frame) => Progress {
            previous: frame,
            lines: later(p.lines),
            next: end_of(p.next, n, p.got),
            used: end_of(p.used, BOX_BYTES, size),
            ..p
        },
        Err(why) => Progress {
            going: false,
            refusal: u32::from(why),
            ..p
        },
    }
}
