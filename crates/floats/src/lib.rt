// Formulas on f64, each with its one rounding a step, as the Rust works them out.
#![tactic(auto)]

ghost use Rattle.std.specs.Prelude.{◌≡◌};
ghost use Rattle.floats.specs.Exact.{sized_of, midpoint_of, eighths_on, kept_within, CutParameter, distance2_uv, distance2_xyz};

use compress::{Uv, Xyz};

// Is x at most 1.0e15 in size? No for a NaN.
pub fn is_sized(x: f64) -> bool
    ensures { result ≡ sized_of x }
{
    let above = x >= -1.0e15;
    let under = x <= 1.0e15;
    above & under
}

// The middle of t0 to t1.
fn midpoint(t0: f64, t1: f64) -> f64
    ensures { result ≡ midpoint_of t0 t1 }
{
    (t0 + t1) / 2.0
}

// k eighths of the way from t0 to t1.
fn eighths_on(k: u32, t0: f64, t1: f64) -> f64
    ensures { result ≡ eighths_on k t0 t1 }
{
    t0 + (t1 - t0) * f64::from(k) / 8.0
}

// t, or the end of t0 to t1 that it is beyond. Not `f64::clamp`, which panics where t0 is above t1 or one of them is no number.
fn kept_within(t0: f64, t1: f64, t: f64) -> f64
    ensures { result ≡ kept_within t0 t1 t }
{
    if t < t0 {
        return t0;
    }
    if t > t1 { t1 } else { t }
}

// The cut parameter of t0 to t1: k eighths of the way along, and for 4 the middle by its own formula, as the Rust has it.
// Where both ends are sized and t0 is at most t1 it is never outside them, whatever k is.
pub fn cut_parameter(t0: f64, t1: f64, k: u32) -> f64
    ensures { CutParameter k t0 t1 result }
{
    if k == 4 {
        return midpoint(t0, t1);
    }
    kept_within(t0, t1, eighths_on(k, t0, t1))
}

// The squared distance of two points of a parameter plane. A function here and one for points in space: a trait
// over both points would reach through three crates (to read them, their causes, their tests), and nothing generic calls it.
pub fn distance2_uv(a: Uv, b: Uv) -> f64
    ensures { result ≡ distance2_uv a.u a.v b.u b.v }
{
    let du = b.u - a.u;
    let dv = b.v - a.v;
    du * du + dv * dv
}

// The squared distance of two points in space, added in the order x, y, z.
pub fn distance2_xyz(a: Xyz, b: Xyz) -> f64
    ensures { result ≡ distance2_xyz a.x a.y a.z b.x b.y b.z }
{
    let dx = b.x - a.x;
    let dy = b.y - a.y;
    let dz = b.z - a.z;
    dx * dx + dy * dy + dz * dz
}
