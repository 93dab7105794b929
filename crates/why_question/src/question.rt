// What is asked, and the numbers of its words.
ghost use Rattle.std.specs.Prelude.{◌≡◌};
ghost use Rattle.why_question.specs.Question as Spec;

// A frame's number, and the index of one of its boxes, counted from 0.
#[derive(Clone, Copy, Debug, PartialEq, Eq)]
pub struct Question {
    pub frame: u64,
    pub index: u64,
}

// n with one more digit behind it, where it has at most ten.
fn longer(n: u64, b: u8) -> Option<u64>
    ensures { result ≡ Spec.longer n b }
{
    if (b < b'0') | (b'9' < b) | (1000000000 <= n) {
        return None;
    }
    Some(n * 10 + (b - b'0') as u64)
}

// The decimal number that a word is: one to ten digits alone.
pub fn number_of(word: &[u8]) -> Option<u64>
    ensures { result ≡ Spec.number_of word.now }
{
    if word.len() == 0 {
        return None;
    }
    let mut n = 0;
    for b in word {
        n = longer(n, *b)?;
    }
    Some(n)
}
