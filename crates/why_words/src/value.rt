// An f32 to the nearest thousandth.
ghost use Rattle.std.specs.Prelude.{◌≡◌};
ghost use Rattle.why_words.specs.Words as Words;

// So many thousandths, from zero on or below it.
// Kept: a sign and a size, or neither.
#[derive(Clone, Copy, Debug, PartialEq, Eq)]
pub enum Value {
    Above(u64),
    Below(u64),
    // No u64 has them: an infinity, a NaN, or a number so large.
    Beyond,
}

// x × 1000 + 1/2. Of an f32 the product is exact in f64.
fn scaled(x: f32) -> f64
    ensures { result ≡ Words.scaled x }
{
    std::num::f32_to_f64_with_nan(x) * 1000.0 + 0.5
}

// The whole part, where a u64 has it.
fn whole_part(w: f64) -> Option<u64>
    ensures { result ≡ Words.whole w }
{
    if w > -1.0 {
        if w < 18446744073709551616.0 {
            return Some(std::num::truncating_f64_to_u64(w));
        }
        return None;
    }
    None
}

pub(crate) fn value_of(x: f32) -> Value
    ensures { result ≡ Words.value_of x }
{
    if x < 0.0 {
        return whole_part(scaled(-x)).map_or(Value::Beyond, Value::Below);
    }
    whole_part(scaled(x)).map_or(Value::Beyond, Value::Above)
}
