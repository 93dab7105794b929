// What is wrong with a value of a line that has the form.
ghost use Rattle.std.specs.Prelude.{◌≡◌, Ok};
ghost use Rattle.mot_fault.specs.Value as Value;

use crate::kinds::{Fault, Found, Report, at};
use box_verdict::beyond;
use mot_line::MOST_FRAMES_ON;
use records::BoxRecord;

// The previous frame number is 0 where no line was read before.
#[tactic(auto, unfolding(crate::specs::Value::frame_value))]
fn frame_value(previous: u32, frame: u32) -> Result<(), Found>
    ensures { result ≡ Value.frame_value previous frame }
{
    if frame == 0 {
        return at(Fault::FrameZero, 0);
    }
    if frame < previous {
        return at(Fault::FrameBack, 0);
    }
    if frame - previous <= MOST_FRAMES_ON {
        return Ok(());
    }
    if previous == 0 {
        return at(Fault::FirstFrameFar, 0);
    }
    at(Fault::FrameFar, 0)
}

// Of left and top.
#[tactic(auto, unfolding(crate::specs::Value::place_value))]
fn place_value(x: f32) -> Result<(), Found>
    ensures { result ≡ Value.place_value x }
{
    if beyond(x) {
        return at(Fault::Beyond, 0);
    }
    Ok(())
}

// Of width and height.
#[tactic(auto, unfolding(crate::specs::Value::side_value))]
fn side_value(x: f32) -> Result<(), Found>
    ensures { result ≡ Value.side_value x }
{
    if !(x > 0.0) {
        return at(Fault::NotAboveZero, 0);
    }
    place_value(x)
}

#[tactic(auto, unfolding(crate::specs::Value::score_value))]
fn score_value(x: f32) -> Result<(), Found>
    ensures { result ≡ Value.score_value x }
{
    if x < 0.0 {
        return at(Fault::BelowZero, 0);
    }
    if x > 1.0 {
        return at(Fault::AboveOne, 0);
    }
    Ok(())
}

// What was found of field i.
pub(crate) fn in_field(i: usize, found: Result<(), Found>) -> Result<(), Report>
    ensures { result ≡ Value.in_field i found (Ok tt) }
{
    found.map_err(|found| Report {
        fault: found.fault,
        field: i,
        byte: found.byte,
    })
}

// The first value that is wrong.
#[tactic(auto, unfolding(crate::specs::Value::value_fault))]
pub(crate) fn value_fault(previous: u32, b: BoxRecord) -> Result<(), Report>
    ensures { result ≡ Value.value_fault previous b }
{
    in_field(1, frame_value(previous, b.frame))?;
    in_field(3, place_value(b.left))?;
    in_field(4, place_value(b.top))?;
    in_field(5, side_value(b.width))?;
    in_field(6, side_value(b.height))?;
    in_field(7, score_value(b.score))
}
