// Document 000, `split_closed_faces.rs`: unwrapping and nearest copy. A period is absent, or a number above 0.
#![tactic(auto)]

pub mod host_numbers;

ghost use Rattle.std.specs.Prelude.{◌≡◌, Float};
ghost use mathlib.Core.List.{foldl};
ghost use Rattle.compress.specs.declared.Uv.{Uv};
ghost use Rattle.compress.specs.Choice.{smaller};
ghost use Rattle.compress.specs.Refusals.{cause_of};
ghost use Rattle.compress.specs.Said.{said_of};
ghost use Rattle.periodic.specs.Unwrap.{candidates_of, size_of, away_from, nearest_of, unwrapped, period_cause_of, unwrap_cause, get_mindiff};
ghost use Rattle.periodic.specs.Copies.{first_shift, later_shifts, shifts_of, shifted, copies_along, from, nearest_copy_of, copy_cause, nearest_copy_said};

use compress::{Checked, Refusal, Uv};

// Of a and b the one with the smaller measure; a on a tie. Not `min_by_key` over an order of all floats: the definition goes by `<`.
pub fn smaller<A: Copy, F: Fn(A) -> f64>(measure: F, a: A, b: A) -> A
    requires { F.IsAlwaysCallable measure }
    ensures { (f : A → Float) → ((x : A) (m : _) → F.post measure x m → m ≡ f x) → result ≡ smaller f a b }
{
    let to_a = measure(a);
    let to_b = measure(b);
    if to_b < to_a { b } else { a }
}

// ---- unwrapping

// u + i * p for i from -2 to 2.
fn candidates(u: f64, p: f64) -> [f64; 5]
    ensures { result ≡ candidates_of u p }
{
    [
        u + -2.0 * p,
        u + -1.0 * p,
        u + 0.0 * p,
        u + 1.0 * p,
        u + 2.0 * p,
    ]
}

// Not `abs`, which makes 0.0 of -0.0: the definition leaves it.
fn size(d: f64) -> f64
    ensures { result ≡ size_of d }
{
    if d < 0.0 { -d } else { d }
}

// Of a and b the one that is nearer to u0; a on a tie.
fn nearer(u0: f64, a: f64, b: f64) -> f64
    ensures { result ≡ smaller (away_from u0) a b }
{
    smaller(|x| size(x - u0), a, b)
}

// Of the five the first that is nearest to u0.
fn first_nearest(u0: f64, c: [f64; 5]) -> f64
    ensures { result ≡ nearest_of u0 c }
{
    c[1..].iter().fold(c[0], |best, x| nearer(u0, best, *x))
}

fn unwrap(u: f64, u0: f64, period: Option<f64>) -> f64
    ensures { result ≡ unwrapped u u0 period }
{
    match period {
        None => u,
        Some(p) => first_nearest(u0, candidates(u, p)),
    }
}

fn period_cause(period: Option<f64>) -> Checked
    ensures { cause_of result ≡ period_cause_of period }
{
    period.map_or(Ok(()), checks::period)
}

// The arguments here and in the nearest copy are those of the call, in its order: a struct would be made in one place, for two functions.
fn unwrap_cause(u: f64, u0: f64, period: Option<f64>) -> Checked
    ensures { cause_of result ≡ unwrap_cause u u0 period }
{
    checks::lower(
        checks::float(u),
        checks::lower(checks::float(u0), period_cause(period)),
    )
}

// `get_mindiff`: u, moved by whole periods to where it is nearest to u0.
pub fn get_mindiff(u: f64, u0: f64, period: Option<f64>) -> Result<f64, Refusal>
    ensures { said_of (λ x. x) result ≡ get_mindiff u u0 period }
{
    unwrap_cause(u, u0, period)?;
    Ok(unwrap(u, u0, period))
}

// ---- nearest copy

fn shift(q: Uv, du: f64, dv: f64) -> Uv
    ensures { result ≡ shifted q du dv }
{
    Uv {
        u: q.u + du,
        v: q.v + dv,
    }
}

// Of a and b the one that is nearer to p; a on a tie.
fn closer(p: Uv, a: Uv, b: Uv) -> Uv
    ensures { result ≡ smaller (from p) a b }
{
    smaller(|c: Uv| floats::distance2_uv(p, c), a, b)
}

fn first_shift(period: Option<f64>) -> f64
    ensures { result ≡ first_shift period }
{
    period.map_or(0.0, |p| -2.0 * p)
}

// The point that `step` makes of `start`, at every shift of the period but the first, in turn.
fn over_later<F: Fn(Uv, f64) -> Uv>(period: Option<f64>, start: Uv, step: F) -> Uv
    requires { F.IsAlwaysCallable step }
    ensures { (g : Uv → Float → Uv) → ((a : _) (d : _) (b : _) → F.post step a d b → b ≡ g a d)
        → result ≡ foldl g start (later_shifts period) }
{
    match period {
        None => start,
        Some(p) => {
            let mut point = start;
            for d in [-p, 0.0, p, 2.0 * p] {
                point = step(point, d);
            }
            point
        }
    }
}

// The best so far against the copies with one shift in u but the first.
fn later_along(p: Uv, q: Uv, du: f64, vp: Option<f64>, best: Uv) -> Uv
    ensures { result ≡ foldl (smaller (from p)) best (copies_along q du (later_shifts vp)) }
{
    over_later(vp, best, |best, dv| closer(p, best, shift(q, du, dv)))
}

// The best so far against the copies with one shift in u.
fn along(p: Uv, q: Uv, du: f64, vp: Option<f64>, best: Uv) -> Uv
    ensures { result ≡ foldl (smaller (from p)) best (copies_along q du (shifts_of vp)) }
{
    let first = closer(p, best, shift(q, du, first_shift(vp)));
    later_along(p, q, du, vp, first)
}

// The first shifts stand apart from the later ones: a fold over all took 709 instructions at two periods where this took 496 (measured by callgrind).
fn copy_nearest(p: Uv, q: Uv, up: Option<f64>, vp: Option<f64>) -> Uv
    ensures { result ≡ nearest_copy_of p q up vp }
{
    let du = first_shift(up);
    let first = shift(q, du, first_shift(vp));
    let best = later_along(p, q, du, vp, first);
    over_later(up, best, |best, du| along(p, q, du, vp, best))
}

fn copy_cause(p: Uv, q: Uv, up: Option<f64>, vp: Option<f64>) -> Checked
    ensures { cause_of result ≡ copy_cause p q up vp }
{
    checks::lower(
        checks::uv(p),
        checks::lower(
            checks::uv(q),
            checks::lower(period_cause(up), period_cause(vp)),
        ),
    )
}

// Of the copies of q, moved by whole periods, the first that is nearest to p.
pub fn nearest_copy(p: Uv, q: Uv, up: Option<f64>, vp: Option<f64>) -> Result<Uv, Refusal>
    ensures { said_of (λ x. x) result ≡ nearest_copy_said p q up vp }
{
    copy_cause(p, q, up, vp)?;
    Ok(copy_nearest(p, q, up, vp))
}
