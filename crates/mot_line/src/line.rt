// A line: frame, id, left, top, width, height, confidence and three coordinates, with commas between them and a line feed at the end. Id and coordinates are `-1`.
ghost use Rattle.std.specs.Prelude.{◌≡◌};
ghost use Rattle.mot_fields.specs.Fields.{fields, of_forms};
ghost use Rattle.mot_line.specs.Line as Spec;
ghost use Rattle.mot_line.specs.Private as Private;

use mot_fields::{frame_field, minus_one, minus_one_field, number_field};
use records::BoxRecord;

// The label of every box of the desk.
const SLEEPER: u8 = 1;

// The three coordinates.
fn coordinates(rest: &[u8]) -> bool
    ensures { result ≡ of_forms Private.coordinates (fields rest.now) }
{
    let Some(y) = minus_one_field(rest) else {
        return false;
    };
    let from_y = &rest[y..];
    let Some(z) = minus_one_field(from_y) else {
        return false;
    };
    minus_one(&from_y[z..])
}

// The box of this frame, and the coordinates behind it.
fn box_of(rest: &[u8], frame: u32) -> Option<BoxRecord>
    ensures { result ≡ Private.box_fields frame (fields rest.now) }
{
    let (left, a) = number_field(rest)?;
    let from_top = &rest[a..];
    let (top, b) = number_field(from_top)?;
    let from_width = &from_top[b..];
    let (width, c) = number_field(from_width)?;
    let from_height = &from_width[c..];
    let (height, d) = number_field(from_height)?;
    let from_score = &from_height[d..];
    let (score, e) = number_field(from_score)?;
    if !coordinates(&from_score[e..]) {
        return None;
    }
    Some(BoxRecord {
        frame,
        left,
        top,
        width,
        height,
        score,
        label: SLEEPER,
    })
}

// Frame and id, and the box behind them.
fn box_of_body(body: &[u8]) -> Option<BoxRecord>
    ensures { result ≡ Private.body_fields (fields body.now) }
{
    let (frame, id) = frame_field(body)?;
    let from_id = &body[id..];
    let left = minus_one_field(from_id)?;
    box_of(&from_id[left..], frame)
}

// The box of a line, whatever its values are; none where it is not of this form.
pub fn box_of_line(line: &[u8]) -> Option<BoxRecord>
    ensures { result ≡ Spec.line_of line.now }
{
    let n = line.len();
    if n == 0 {
        return None;
    }
    let end = n - 1;
    if line[end] != b'\n' {
        return None;
    }
    box_of_body(&line[..end])
}
