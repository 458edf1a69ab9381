// One edge cut in two: `cut_edge` of document 001, and the vertex that is pending where it is cut.

ghost use Rattle.std.specs.Prelude.{◌≡◌};
ghost use Rattle.checks.specs.Causes.{curve_cause, vertex_cause};
ghost use Rattle.cutting.specs.cut_edge.Cut.{with_range, halves_of, pending_of};
ghost use Rattle.cutting.specs.parameter.Eighths.{parameter_of};

use crate::parameter;
use compress::{Curve, Edge, Vertex};

// An edge that was cut, and the edge that was cut off.
#[derive(Clone, Copy)]
pub struct Halves {
    pub old: Edge,
    pub new: Edge,
}

// The curve, from t0 to t1. Field by field: `..c` is for structs alone.
fn with_range(c: Curve, t0: f64, t1: f64) -> Curve
    ensures { result ≡ with_range c t0 t1 }
{
    match c {
        Curve::Span { number, .. } => Curve::Span { number, t0, t1 },
        Curve::Seam { surface, p, q, .. } => Curve::Seam {
            surface,
            p,
            q,
            t0,
            t1,
        },
    }
}

// Both halves of an edge that is cut at t by vertex n: the old one has the part of the curve up to t, the new one that from t on. The calls that
// are handed a parameter cut by this one.
pub fn both_halves(e: Edge, t: f64, n: u32) -> Halves
    ensures { result ≡ halves_of e t n }
{
    let (t0, t1) = e.curve.range();
    Halves {
        old: Edge {
            back: n,
            curve: with_range(e.curve, t0, t),
            ..e
        },
        new: Edge {
            front: n,
            curve: with_range(e.curve, t, t1),
            ..e
        },
    }
}

// `cut_edge`: the lent edge is cut k eighths of the way along its curve, where the Rust's is cut at the middle. It keeps its first half, and the
// second is handed back.
pub fn cut_edge(e: &mut Edge, k: u32, n: u32) -> Edge
    ensures { let h = halves_of e.old (parameter_of k e.old.curve) n in
        (e.new ≡ h.old) × (result ≡ h.new) }
{
    let h = both_halves(*e, parameter::parameter(e.curve, k), n);
    *e = h.old;
    h.new
}

// The new vertex of an edge that is yet to be cut, pending k eighths of the way along its curve. Where the curve has no cause the vertex has none.
pub fn pending(e: Edge, k: u32) -> Vertex
    ensures exact { result ≡ pending_of (parameter_of k) e }
    ensures accepted { curve_cause e.curve ≡ 0 → vertex_cause result ≡ 0 }
{
    let curve = e.curve;
    let t = parameter::parameter(curve, k);
    Vertex::Pending { curve, t }
}
