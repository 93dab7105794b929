// The fields of a line of MOTChallenge text, read from the front: change request N1.
// Each function that reads a field takes what is left of the line from that field on, and says where the next field starts in it. So a field that no other follows is turned away.
#![tactic(auto)]

ghost use Rattle.std.specs.Prelude.{◌≡◌, true, MatchOption};
ghost use Rattle.mot_number.specs.Index.{index_of};
ghost use Rattle.mot_fields.specs.Fields as Fields;
ghost use Rattle.mot_fields.specs.Reading as Reading;

use mot_number::{find, frame_of, number_of};

// The first comma, or the end where there is none.
pub fn comma(rest: &[u8]) -> usize
    ensures { result ≡ index_of 44 rest.now }
{
    find(rest, b',')
}

// The text is `-1`.
pub fn minus_one(text: &[u8]) -> bool
    ensures { result ≡ Fields.is_minus_one text.now }
{
    if text.len() != 2 {
        return false;
    }
    (text[0] == b'-') & (text[1] == b'1')
}

// The first field, and where the one behind it starts; none where no other follows it.
fn first_field(rest: &[u8]) -> Option<(&[u8], usize)>
    ensures { MatchOption result (Reading.is_last rest.now ≡ true) (λ found. Reading.IsFirst rest.now found.0.now found.1) }
{
    let end = comma(rest);
    if rest.len() <= end {
        return None;
    }
    Some((&rest[..end], end + 1))
}

// A frame number, and where the next field starts.
// Kept: a function over `frame_of` or `number_of` would need a clause of what it is given, and its three lines again at each call.
pub fn frame_field(rest: &[u8]) -> Option<(u32, usize)>
    ensures { result ≡ Reading.frame_field rest.now }
{
    let (text, next) = first_field(rest)?;
    let value = frame_of(text)?;
    Some((value, next))
}

// A number, and where the next field starts.
pub fn number_field(rest: &[u8]) -> Option<(f32, usize)>
    ensures { result ≡ Reading.number_field rest.now }
{
    let (text, next) = first_field(rest)?;
    let value = number_of(text)?;
    Some((value, next))
}

// Where the field behind `-1` starts.
pub fn minus_one_field(rest: &[u8]) -> Option<usize>
    ensures { result ≡ Reading.minus_one_field rest.now }
{
    let (text, next) = first_field(rest)?;
    minus_one(text).then_some(next)
}
