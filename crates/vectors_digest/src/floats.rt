// Floats of bit patterns, and the words that stand for floats.
ghost use Rattle.std.specs.Prelude.{◌≡◌, ◌%◌};
ghost use Rattle.vectors_digest.specs.Floats as Floats;

// The f32 of a pattern, and one NaN for every pattern that is a NaN.
pub fn float_of(bits: u32) -> f32
    ensures { result ≡ Floats.float bits }
{
    if bits % 0x8000_0000 > 0x7f80_0000 {
        return 0.0 / 0.0;
    }
    f32::from_bits(bits)
}

// The pattern of x, and one for every NaN.
pub fn bits(x: f32) -> u32
    ensures { result ≡ Floats.bits x }
{
    if x != x {
        return 0x7fc0_0000;
    }
    f32::to_bits(x)
}

// The same, of one zero.
pub fn word(x: f32) -> u64
    ensures { result ≡ Floats.word x }
{
    if x == 0.0 {
        return 0;
    }
    bits(x) as u64
}

// The pattern of an f64, and one for every NaN.
pub fn wide_word(x: f64) -> u64
    ensures { result ≡ Floats.wide_word x }
{
    if x != x {
        return 0x7ff8_0000_0000_0000;
    }
    f64::to_bits(x)
}

// The f32 of a word.
pub fn float(word: u64) -> f32
    ensures { result ≡ Floats.float (word % 4294967296) }
{
    float_of((word % 0x1_0000_0000) as u32)
}
