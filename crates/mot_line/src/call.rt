// One call: a line and the previous frame number to a box record, or why not.
ghost use Rattle.std.specs.Prelude.{◌≡◌};
ghost use Rattle.mot_line.specs.Call as Spec;

use crate::line::box_of_line;
use box_verdict::bad_box;
use records::{BoxRecord, write_box};

// Why a line is turned away, in this order.
#[derive(Clone, Copy, Debug, PartialEq, Eq)]
pub enum Refusal {
    // 51
    NotOfTheForm,
    // 52: a value that document 01 turns down by 16, 42 or 43
    BadValue,
    // 53
    NoRoom,
}

impl From<Refusal> for u32 {
    ghost from_gives = { λ why n. n ≡ Spec.number why };

    fn from(why: Refusal) -> u32 {
        match why {
            Refusal::NotOfTheForm => 51,
            Refusal::BadValue => 52,
            Refusal::NoRoom => 53,
        }
    }
}

// A frame number lies no further above the previous one: document 01's 43.
pub const MOST_FRAMES_ON: u32 = 1000;

// A frame number of 0 or below the previous one, or too far above it.
fn bad_frame(previous: u32, frame: u32) -> bool
    ensures { result ≡ Spec.bad_frame previous frame }
{
    if (frame == 0) | (frame < previous) {
        return true;
    }
    MOST_FRAMES_ON < frame - previous
}

fn bad_value(previous: u32, b: BoxRecord) -> bool
    ensures { result ≡ Spec.bad_value previous b }
{
    bad_frame(previous, b.frame) | bad_box(b.left, b.top, b.width, b.height, b.score)
}

// Reads a line, its line feed included, writes its record at the front of `out` and answers its frame number. The previous frame number is 0 before the first line.
pub fn mot_line(line: &[u8], previous: u32, out: &mut [u8]) -> Result<u32, Refusal>
    ensures { Spec.outcome result out.new ≡ Spec.mot_line line.now previous out.old }
{
    let b = box_of_line(line).ok_or(Refusal::NotOfTheForm)?;
    if bad_value(previous, b) {
        return Err(Refusal::BadValue);
    }
    write_box(b, 0, out).ok_or(Refusal::NoRoom)?;
    Ok(b.frame)
}
