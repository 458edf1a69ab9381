// What a host is told of an answer: a code, and a result in the places that it lent.
#![tactic(auto)]

ghost use Rattle.std.specs.Prelude.{◌≡◌};
ghost use Rattle.compress.specs.Said.{said_of, said_if};
ghost use Rattle.codes.specs.Told.{Told, code_of, uv_of};

use compress::{Counts, Refusal, Uv};
use correction::nearest::Ends;
use split::Boundaries;

// 0 for a result, else the number of the refusal. No `From`, which would be between two types of other crates.
fn code_of<T: Copy>(answer: Result<T, Refusal>) -> i32
    ensures { result ≡ code_of (said_of (λ x. x) answer) }
{
    match answer {
        Ok(_) => 0,
        Err(r) => i32::from(r),
    }
}

// The same of an answer that may be "none", which is -1. One of each, here and below: by `map(Some)` the one would be a line over the other, and each is
// a match of two.
fn code_if<T: Copy>(answer: Result<Option<T>, Refusal>) -> i32
    ensures { result ≡ code_of (said_if (λ x. x) answer) }
{
    match answer {
        Ok(None) => -1,
        told => code_of(told),
    }
}

// A result, to the place for it.
pub fn tell<T: Copy>(answer: Result<T, Refusal>, out: &mut T) -> i32
    ensures { Told (said_of (λ x. x) answer) out.old out.new result }
{
    if let Ok(x) = &answer {
        *out = *x;
    }
    code_of(answer)
}

// The same of an answer that may be "none".
pub fn tell_if<T: Copy>(answer: Result<Option<T>, Refusal>, out: &mut T) -> i32
    ensures { Told (said_if (λ x. x) answer) out.old out.new result }
{
    if let Ok(Some(x)) = &answer {
        *out = *x;
    }
    code_if(answer)
}

// One function for each set of places: each writes other fields to other places, and of a closure handed to a function no proof knows what it wrote.

// The counts of a shell that a call leaves, to three places.
pub fn tell_counts(
    answer: Result<Counts, Refusal>,
    vertices_out: &mut usize,
    edges_out: &mut usize,
    uses_out: &mut usize,
) -> i32
    ensures { Told (said_of (λ n. n) answer)
        (record { vertices = vertices_out.old; edges = edges_out.old; uses = uses_out.old })
        (record { vertices = vertices_out.new; edges = edges_out.new; uses = uses_out.new }) result }
{
    if let Ok(n) = answer {
        *vertices_out = n.vertices;
        *edges_out = n.edges;
        *uses_out = n.uses;
    }
    code_of(answer)
}

// The counts of a split, to three places.
pub fn tell_boundaries(
    answer: Result<Boundaries, Refusal>,
    wires_out: &mut usize,
    uses_out: &mut usize,
    edges_out: &mut usize,
) -> i32
    ensures { Told (said_of (λ b. b) answer)
        (record { wires = wires_out.old; uses = uses_out.old; edges = edges_out.old })
        (record { wires = wires_out.new; uses = uses_out.new; edges = edges_out.new }) result }
{
    if let Ok(b) = answer {
        *wires_out = b.wires;
        *uses_out = b.uses;
        *edges_out = b.edges;
    }
    code_of(answer)
}

// A point, to two places.
pub fn tell_uv(answer: Result<Uv, Refusal>, u_out: &mut f64, v_out: &mut f64) -> i32
    ensures { Told (said_of (λ p. p) answer) (uv_of u_out.old v_out.old) (uv_of u_out.new v_out.new) result }
{
    if let Ok(p) = answer {
        *u_out = p.u;
        *v_out = p.v;
    }
    code_of(answer)
}

// Two vertices, to two places.
pub fn tell_ends(answer: Result<Option<Ends>, Refusal>, v0_out: &mut u32, v1_out: &mut u32) -> i32
    ensures { Told (said_if (λ e. e) answer)
        (record { v0 = v0_out.old; v1 = v1_out.old }) (record { v0 = v0_out.new; v1 = v1_out.new }) result }
{
    if let Ok(Some(ends)) = answer {
        *v0_out = ends.v0;
        *v1_out = ends.v1;
    }
    code_if(answer)
}
