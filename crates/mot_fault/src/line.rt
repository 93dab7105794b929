// What is wrong with a line: its line feed, its fields, and then their values.
ghost use Rattle.std.specs.Prelude.{◌≡◌, min, length};
ghost use Rattle.mot_fields.specs.Fields.{fields};
ghost use Rattle.mot_fault.specs.Line as Spec;

use crate::field::field_fault;
use crate::kinds::{Fault, Report, of_line};
use crate::value::{in_field, value_fault};
use mot_fields::comma;
use mot_line::box_of_line;

// How many fields there are, 11 at most.
fn field_count(body: &[u8]) -> usize
    ensures { result ≡ min (length (fields body.now)) 11 }
{
    let mut at = 0;
    for n in 1..11 {
        let rest = &body[at..];
        let end = comma(rest);
        if rest.len() <= end {
            return n;
        }
        at += end + 1;
    }
    11
}

// The first of ten fields that is not of its form.
fn form_fault(body: &[u8]) -> Result<(), Report>
    ensures { result ≡ Spec.first_fault 10 1 (fields body.now) }
{
    let mut at = 0;
    for i in 1..11 {
        let rest = &body[at..];
        let end = comma(rest);
        in_field(i, field_fault(i, &rest[..end]))?;
        if rest.len() <= end {
            return Ok(());
        }
        at += end + 1;
    }
    Ok(())
}

// The last byte is this one.
fn ends_with(text: &[u8], b: u8) -> bool
    ensures { result ≡ Spec.ends_with b text.now }
{
    let n = text.len();
    if n == 0 {
        return false;
    }
    text[n - 1] == b
}

// Of the fields, and then of the values that they have.
#[tactic(auto, unfolding(crate::specs::Line::field_report))]
fn field_report(line: &[u8], body: &[u8], previous: u32) -> Result<(), Report>
    ensures { result ≡ Spec.field_report line.now (fields body.now) previous }
{
    let count = field_count(body);
    if count != 10 {
        return of_line(Fault::FieldCount, count);
    }
    form_fault(body)?;
    let Some(b) = box_of_line(line) else {
        return Ok(());
    };
    value_fault(previous, b)
}

// The first thing that is wrong with a line, its line feed included, behind this frame.
#[tactic(auto, unfolding(crate::specs::Line::report_of))]
pub fn report(line: &[u8], previous: u32) -> Result<(), Report>
    ensures { result ≡ Spec.report_of line.now previous }
{
    if !ends_with(line, b'\n') {
        return of_line(Fault::NoLineFeed, 0);
    }
    let end = line.len() - 1;
    if end == 0 {
        return of_line(Fault::EmptyLine, 0);
    }
    let body = &line[..end];
    if ends_with(body, b'\r') {
        return of_line(Fault::CarriageReturn, 0);
    }
    field_report(line, body, previous)
}
