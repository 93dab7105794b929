// The C interface: each function of include/bedside.h is exported under its name there, and its
// contract cites the same definition as the function that it calls.
#![tactic(auto)]

mod assignment;
mod filter;
mod forget;
mod frame;
mod mot;
mod pairs;
mod why;

ghost use Rattle.std.specs.Prelude.{◌≡◌};
ghost use Rattle.floats.specs.Exponential as Exponential;
ghost use Rattle.floats_pick.specs.Pick as Pick;
ghost use Rattle.floats.specs.Power as Power;
ghost use Rattle.floats.specs.Root as Root;

// The larger of a and b.
#[unsafe(no_mangle)]
pub extern "C" fn bedside_max(a: f32, b: f32) -> f32
    ensures { result ≡ Pick.larger a b }
{
    floats_pick::max(a, b)
}

// The smaller of a and b.
#[unsafe(no_mangle)]
pub extern "C" fn bedside_min(a: f32, b: f32) -> f32
    ensures { result ≡ Pick.smaller a b }
{
    floats_pick::min(a, b)
}

// The root of x.
#[unsafe(no_mangle)]
pub extern "C" fn bedside_sqrt(x: f32) -> f32
    ensures { result ≡ Root.root x }
{
    floats::sqrt(x)
}

// c to the power e.
#[unsafe(no_mangle)]
pub extern "C" fn bedside_powi(c: f32, e: i32) -> f32
    ensures { result ≡ Power.powi c e }
{
    floats_power::powi(c, e)
}

// m to the power 1.5.
#[unsafe(no_mangle)]
pub extern "C" fn bedside_powf_1_5(m: f32) -> f32
    ensures { result ≡ Power.powf15 m }
{
    floats_power::powf_1_5(m)
}

// e to the power a.
#[unsafe(no_mangle)]
pub extern "C" fn bedside_exp(a: f32) -> f32
    ensures { result ≡ Exponential.exp a }
{
    floats::exp(a)
}
