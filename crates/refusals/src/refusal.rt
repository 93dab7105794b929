// Why a call of a pairing routine is turned down: document 01's 31, 32 and 33, and 02's 34, the reasons in the order in which they are looked for.
// A call that may be turned down answers with a `Result` whose error is a `Refusal`.
ghost use Rattle.std.specs.Prelude.{◌≡◌};
ghost use Rattle.refusals.specs.Refusal as Spec;

#[derive(Clone, Copy, Debug, PartialEq, Eq)]
pub enum Refusal {
    // 31: more than 255 boxes or tracks
    TooMany,
    // 32: a matrix, confidence or label slice of another size than its sides say
    OtherSize,
    // 33: a result or work slice too short
    TooShort,
    // 34: a label other than 1 to 3
    NotLabelled,
}

impl From<Refusal> for u32 {
    ghost from_gives = { λ why n. n ≡ Spec.number why };

    fn from(why: Refusal) -> u32 {
        match why {
            Refusal::TooMany => 31,
            Refusal::OtherSize => 32,
            Refusal::TooShort => 33,
            Refusal::NotLabelled => 34,
        }
    }
}
