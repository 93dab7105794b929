// Larger and smaller, where a not-a-number gives way to a number, and the magnitude. The library's `max` and `min` leave open which of 0 and -0 they give; here it is the first.
ghost use Rattle.std.specs.Prelude.{◌≡◌};
ghost use Rattle.floats_pick.specs.Pick as Pick;

// The larger of a and b.
pub fn max(a: f32, b: f32) -> f32
    ensures { result ≡ Pick.larger a b }
{
    chosen(a < b, a, b)
}

// The smaller of a and b.
pub fn min(a: f32, b: f32) -> f32
    ensures { result ≡ Pick.smaller a b }
{
    chosen(b < a, a, b)
}

// The second where it beats the first, or is a number and the first is none.
fn chosen(beats: bool, first: f32, second: f32) -> f32
    ensures { result ≡ Pick.choose beats first second }
{
    if first.is_nan() {
        if second.is_nan() { first } else { second }
    } else if beats {
        second
    } else {
        first
    }
}

// x with its sign cleared.
pub fn abs(x: f32) -> f32
    ensures { result ≡ Pick.abs x }
{
    if x.is_nan() {
        return x;
    }
    f32::from_bits(x.to_bits() % 0x8000_0000)
}
