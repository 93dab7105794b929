#![tactic(auto)]

// Powers: by a whole number, and by 1.5.
ghost use Rattle.std.specs.Prelude.{◌≡◌};
ghost use Rattle.floats.specs.Power as Power;

// c to the power e.
pub fn powi(c: f32, e: i32) -> f32
    ensures { result ≡ Power.powi c e }
{
    if e < 0 {
        1.0 / raised(c, e.unsigned_abs())
    } else {
        raised(c, e.unsigned_abs())
    }
}

// c to the power n, by the bits of n from the lowest.
fn raised(c: f32, n: u32) -> f32
    ensures { result ≡ Power.powers 32 c n Power.one }
{
    let mut square = c;
    let mut left = n;
    let mut r = 1.0f32;
    // Kept: it halves what is left of n, and counts nothing; a range over the bits of n would need their number first.
    while left != 0 {
        if left % 2 == 1 {
            r *= square;
        }
        square *= square;
        left /= 2;
    }
    r
}

// m to the power 1.5.
pub fn powf_1_5(m: f32) -> f32
    ensures { result ≡ Power.powf15 m }
{
    m * floats::sqrt(m)
}
