// Which boxes a frame can take: document 01's 16, of one box.
#![tactic(auto)]

ghost use Rattle.std.specs.Prelude.{◌≡◌};
ghost use Rattle.std.specs.Float.Ieee.Scale.{finite as ieee_finite};
ghost use Rattle.box_verdict.specs.Box.{beyond, bad_box};

// Neither a NaN nor an infinity.
pub fn finite(x: f32) -> bool
    ensures { result ≡ ieee_finite x }
{
    x.is_finite()
}

// Strictly beyond 65536 in magnitude.
#[tactic(auto, unfolding(crate::specs::Box::beyond))]
pub fn beyond(x: f32) -> bool
    ensures { result ≡ beyond x }
{
    (x < -65536.0) | (x > 65536.0)
}

// No frame takes a box of these values.
#[tactic(auto, unfolding(crate::specs::Box::bad_box))]
pub fn bad_box(left: f32, top: f32, width: f32, height: f32, score: f32) -> bool
    ensures { result ≡ bad_box left top width height score }
{
    let finite_values = finite(left)
        & (finite(top) & (finite(width) & (finite(height) & finite(score))));
    let sized = (width > 0.0) & (height > 0.0);
    let far = beyond(left) | (beyond(top) | (beyond(width) | beyond(height)));
    let scored = (score < 0.0) | (score > 1.0);
    !finite_values | (!sized | (far | scored))
}
