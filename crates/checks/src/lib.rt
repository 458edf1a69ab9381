// Causes 1 to 5 of document 01's table, with document 02's of a preparation, for lone numbers, records and wires: every input is checked, and the lowest number wins.
// Each check answers for all numbers: nothing, or the refusal whose number is a definition of specs/Causes.
#![tactic(auto)]

pub mod points;
pub mod tables;

ghost use Rattle.std.specs.Prelude.{◌≡◌, true, ℕ, ◌+◌, ◌/◌, ◌≤◌, ◌<◌, length, take, ltb};
ghost use Rattle.compress.specs.Records.{pick};
ghost use Rattle.compress.specs.Refusals.{refusal_number, cause_of};
ghost use Rattle.checks.specs.Causes.{when, lower_of, lowest_of, count_cause, kind_cause, preparation_cause, vertex_number_cause, edge_number_cause, float_cause, range_cause, parameter_cause, period_cause, uv_cause, curve_cause, edge_cause, point_cause, vertex_cause, uses_cause, wires_cause};

use compress::{Checked, Curve, Edge, Refusal, Uv, Vertex, Xyz};
use rows::lent::Wires;

// The refusal where the test holds: a row of tests is then one expression, with no branch.
pub fn cause_when(test: bool, refusal: Refusal) -> Checked
    ensures { cause_of result ≡ when test (refusal_number refusal) }
{
    if test { Err(refusal) } else { Ok(()) }
}

// The lower of two causes.
pub fn lower(a: Checked, b: Checked) -> Checked
    ensures { cause_of result ≡ lower_of (cause_of a) (cause_of b) }
{
    match (a, b) {
        (Err(x), Err(y)) => Err(x.min(y)),
        (Err(x), Ok(())) => Err(x),
        (Ok(()), other) => other,
    }
}

// The lowest cause of rows 0, 1 and so on, `count` of them.
pub fn lowest_cause<F: Fn(usize) -> Checked>(count: usize, row: F) -> Checked
    requires { (i : ℕ) → i < count → F.pre row i }
    ensures { (f : ℕ → ℕ) → ((i : ℕ) (r : _) → i < count → F.post row i r → cause_of r ≡ f i) →
        cause_of result ≡ lowest_of f count }
{
    let mut least = Ok(());
    for i in 0..count {
        least = lower(least, row(i));
    }
    least
}

// ---- lone numbers

pub fn count(most: usize, n: usize) -> Checked
    ensures { cause_of result ≡ count_cause most n }
{
    cause_when(n > most, Refusal::Malformed)
}

// A kind is a number, as hosts lend it.
pub fn kind(k: u32) -> Checked
    ensures { cause_of result ≡ kind_cause k }
{
    cause_when(k > 1, Refusal::Malformed)
}

// So is a preparation.
pub fn preparation(n: u32) -> Checked
    ensures { cause_of result ≡ preparation_cause n }
{
    cause_when(n > 2, Refusal::Malformed)
}

// A function for each of the two numbers: with the refusal as an argument every call would name it.
pub fn vertex_number(vertices: usize, n: u32) -> Checked
    ensures { cause_of result ≡ vertex_number_cause vertices n }
{
    cause_when(n as usize >= vertices, Refusal::VertexNumber)
}

pub fn edge_number(edges: usize, n: u32) -> Checked
    ensures { cause_of result ≡ edge_number_cause edges n }
{
    cause_when(n as usize >= edges, Refusal::EdgeNumber)
}

pub fn float(x: f64) -> Checked
    ensures { cause_of result ≡ float_cause x }
{
    cause_when(!floats::is_sized(x), Refusal::NotSized)
}

// A range is two floats, here and in other crates: document 01 names the form of `Curve`, which has t0 and t1 as fields of their own.
pub fn range(t0: f64, t1: f64) -> Checked
    ensures { cause_of result ≡ range_cause t0 t1 }
{
    lower(
        float(t0),
        lower(float(t1), cause_when(t0 > t1, Refusal::OutOfRange)),
    )
}

pub fn parameter(t0: f64, t1: f64, t: f64) -> Checked
    ensures { cause_of result ≡ parameter_cause t0 t1 t }
{
    lower(
        float(t),
        lower(
            cause_when(t < t0, Refusal::OutOfRange),
            cause_when(t > t1, Refusal::OutOfRange),
        ),
    )
}

pub fn period(p: f64) -> Checked
    ensures { cause_of result ≡ period_cause p }
{
    lower(float(p), cause_when(!(p > 0.0), Refusal::OutOfRange))
}

// The number itself where it fits, else the largest that does: a name for std's two calls, with the clause that its callers cite.
fn narrow(n: usize) -> u32
    ensures { result ≡ pick (ltb 4294967295 n) 4294967295 n }
{
    u32::try_from(n).unwrap_or(u32::MAX)
}

// ---- records

pub fn uv(p: Uv) -> Checked
    ensures { cause_of result ≡ uv_cause p }
{
    lower(float(p.u), float(p.v))
}

fn curve(c: Curve) -> Checked
    ensures { cause_of result ≡ curve_cause c }
{
    match c {
        Curve::Span { t0, t1, .. } => range(t0, t1),
        Curve::Seam { p, q, t0, t1, .. } => lower(uv(p), lower(uv(q), range(t0, t1))),
    }
}

pub fn edge(vertices: usize, e: Edge) -> Checked
    ensures { cause_of result ≡ edge_cause vertices e }
{
    let c = e.curve;
    let front = vertex_number(vertices, e.front);
    let back = vertex_number(vertices, e.back);
    lower(front, lower(back, curve(c)))
}

pub fn point(p: Xyz) -> Checked
    ensures { cause_of result ≡ point_cause p.x p.y p.z }
{
    lower(float(p.x), lower(float(p.y), float(p.z)))
}

pub fn vertex(v: Vertex) -> Checked
    ensures { cause_of result ≡ vertex_cause v }
{
    match v {
        Vertex::Given { .. } => point(Xyz::from(v)),
        Vertex::Pending { curve: c, t } => {
            let (t0, t1) = c.range();
            lower(curve(c), parameter(t0, t1, t))
        }
    }
}

// ---- wires

// A test that only says yes or no: after a yes the uses are not read again, after a no their causes are worked out. Beside the causes for speed, as the
// tests of rows in `tables`.
fn are_uses_sound(edges: usize, uses: &[u32]) -> bool
    ensures { result ≡ true → uses_cause edges uses.now (length uses.now) ≡ 0 }
{
    let bound = narrow(edges);
    // Every use is looked at, with no way out: so it is done several uses at a time. `all` is slower, measured: 33 ns and 14 for 64 uses, 515 and 176
    // for 1,024.
    uses.iter().fold(true, |sound, u| sound & (*u / 2 < bound))
}

// The uses of a wire, over a table of `edges` edges.
pub fn uses(edges: usize, uses: &[u32]) -> Checked
    ensures { cause_of result ≡ uses_cause edges uses.now (length uses.now) }
{
    if are_uses_sound(edges, uses) {
        return Ok(());
    }
    // By number, as the definition has it.
    lowest_cause(uses.len(), |i| edge_number(edges, uses[i] / 2))
}

// The wires of a call whose wires lie in one slice, over a table of `edges` edges.
pub fn wires(edges: usize, wires: &Wires) -> Checked
    ensures { cause_of result ≡ wires_cause edges wires.now.uses.now wires.now.lengths.now wires.now.count }
{
    let all = wires.lent_uses().ok_or(Refusal::Malformed)?;
    count(1024, all.len())?;
    uses(edges, all)
}
