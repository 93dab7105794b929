// What is wrong with the form of a field.
ghost use Rattle.std.specs.Prelude.{◌≡◌, not, ◌+◌, ◌<◌, length};
ghost use Rattle.mot_number.specs.Number.{is_digit};
ghost use Rattle.mot_fault.specs.Form as Form;

use crate::kinds::{Fault, Found, at};
use mot_fields::minus_one;
use mot_number::{find, frame_of};

fn is_other(b: u8) -> bool
    ensures { result ≡ not (is_digit b) }
{
    !((b'0' <= b) & (b <= b'9'))
}

// The first byte that is no digit, or the end.
fn first_other(text: &[u8]) -> usize
    ensures { result ≡ Form.first_other text.now }
{
    text.iter().position(|&b| is_other(b)).unwrap_or(text.len())
}

// Of a text that is to be one to six digits, behind `skip` bytes of its field; `none` and `many` are its faults where it has no digit, and where it has more.
#[tactic(auto, unfolding(crate::specs::Form::digits_fault))]
fn digits_fault(text: &[u8], skip: usize, none: Fault, many: Fault) -> Result<(), Found>
    requires { skip + length text.now < 18446744073709551616 }
    ensures { result ≡ Form.digits_fault none many skip text.now }
{
    let n = text.len();
    if n == 0 {
        return at(none, 0);
    }
    let other = first_other(text);
    if other < n {
        return at(Fault::OtherByte, skip + other + 1);
    }
    if 6 < n {
        return at(many, skip + 7);
    }
    Ok(())
}

// Of a number behind its sign.
#[tactic(auto, unfolding(crate::specs::Form::unsigned_fault))]
fn unsigned_fault(text: &[u8], skip: usize) -> Result<(), Found>
    requires { skip + length text.now < 18446744073709551616 }
    ensures { result ≡ Form.unsigned_fault skip text.now }
{
    let n = text.len();
    let point = find(text, b'.');
    digits_fault(&text[..point], skip, Fault::NoDigits, Fault::ManyDigits)?;
    if point == n {
        return Ok(());
    }
    let next = point + 1;
    digits_fault(
        &text[next..],
        skip + next,
        Fault::NoDecimals,
        Fault::ManyDecimals,
    )
}

#[tactic(auto, unfolding(crate::specs::Form::number_fault))]
fn number_fault(text: &[u8]) -> Result<(), Found>
    ensures { result ≡ Form.number_fault text.now }
{
    if text.len() == 0 {
        return at(Fault::Empty, 0);
    }
    if text[0] != b'-' {
        return unsigned_fault(text, 0);
    }
    if text.len() == 1 {
        return at(Fault::MinusAlone, 0);
    }
    unsigned_fault(&text[1..], 1)
}

#[tactic(auto, unfolding(crate::specs::Form::minus_one_fault))]
fn minus_one_fault(text: &[u8]) -> Result<(), Found>
    ensures { result ≡ Form.minus_one_fault text.now }
{
    if minus_one(text) {
        return Ok(());
    }
    at(Fault::NotMinusOne, 0)
}

// One to six digits are an id that is filled in, as in a result line.
#[tactic(auto, unfolding(crate::specs::Form::id_fault, mot_number::specs::Number::frame_number))]
fn id_fault(text: &[u8]) -> Result<(), Found>
    ensures { result ≡ Form.id_fault text.now }
{
    if minus_one(text) {
        return Ok(());
    }
    if frame_of(text).is_none() {
        return at(Fault::NotMinusOne, 0);
    }
    at(Fault::FilledId, 0)
}

// Of field i, counted from 1.
#[tactic(auto, unfolding(crate::specs::Form::field_fault))]
pub(crate) fn field_fault(i: usize, text: &[u8]) -> Result<(), Found>
    ensures { result ≡ Form.field_fault i text.now }
{
    if i == 1 {
        return digits_fault(text, 0, Fault::Empty, Fault::ManyDigits);
    }
    if i == 2 {
        return id_fault(text);
    }
    if i <= 7 {
        return number_fault(text);
    }
    minus_one_fault(text)
}
