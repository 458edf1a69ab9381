// Records in the rows of lent slices: written to their cells, and tables of them; room for a result; runs of numbers.
#![tactic(auto)]

pub mod lent;
pub mod tables;
pub mod wires;

ghost use Rattle.std.specs.Prelude.{◌≡◌, ◌++◌, ◌+◌, ◌*◌, ◌≤◌, length, drop};
ghost use Rattle.std.proofs.lemmas.List.Edits.{sets};
ghost use Rattle.compress.specs.Records.{kind_of, number_of};
ghost use Rattle.compress.specs.Layout.{put};
ghost use Rattle.compress.specs.Shell.{uses_fit};
ghost use Rattle.compress.specs.Rows.{floats_per_edge, HasVertex, HasEdge, numbers_per_vertex, floats_per_vertex, curve_first, curve_cells, edge_number_layout, edge_float_layout, vertex_number_layout, vertex_float_layout};

use compress::{
    CURVE_KIND, Curve, EDGE_CURVE, EDGE_KIND, EDGE_PREPARATION, Edge, FLOATS_PER_EDGE,
    FLOATS_PER_VERTEX, NUMBERS_PER_EDGE, NUMBERS_PER_VERTEX, PARAMETER, T0, T1, VERTEX_CURVE,
    Vertex,
};

// ---- records

// A kind is a number here, as it lies in a row: the C interface.
fn kind_of(c: Curve) -> u32
    ensures { result ≡ kind_of c }
{
    match c {
        Curve::Span { .. } => 0,
        Curve::Seam { .. } => 1,
    }
}

// The number of either case, which no derive gives.
fn number_of(c: Curve) -> u32
    ensures { result ≡ number_of c }
{
    match c {
        Curve::Span { number, .. } => number,
        Curve::Seam { surface, .. } => surface,
    }
}

// The floats of a curve, in a row of floats that begins at cell j.
fn put_curve(floats: &mut [f64], j: usize, c: Curve)
    requires { j + floats_per_edge ≤ length floats.old }
    ensures { floats.new ≡ sets floats.old (j + curve_first c) (curve_cells c) }
{
    match c {
        Curve::Span { t0, t1, .. } => {
            floats[j + T0] = t0;
            floats[j + T1] = t1;
        }
        Curve::Seam { p, q, t0, t1, .. } => {
            floats[j] = p.u;
            floats[j + 1] = p.v;
            floats[j + 2] = q.u;
            floats[j + 3] = q.v;
            floats[j + T0] = t0;
            floats[j + T1] = t1;
        }
    }
}

// The edge e is written to row i. Beside the trait `tables::Row`, as `put_vertex` is: its answers lie by its name, and in the impl would be no fewer.
fn put_edge(numbers: &mut [u32], floats: &mut [f64], i: usize, e: Edge)
    requires { HasEdge numbers.old floats.old i }
    ensures numbers_after { numbers.new ≡ put edge_number_layout numbers.old i e }
    ensures floats_after { floats.new ≡ put edge_float_layout floats.old i e }
{
    let a = i * NUMBERS_PER_EDGE;
    let curve = e.curve;
    numbers[a] = e.front;
    numbers[a + 1] = e.back;
    numbers[a + EDGE_KIND] = kind_of(curve);
    numbers[a + EDGE_CURVE] = number_of(curve);
    numbers[a + EDGE_PREPARATION] = u32::from(e.preparation);
    put_curve(floats, i * FLOATS_PER_EDGE, curve);
}

fn put_vertex_numbers(numbers: &mut [u32], i: usize, v: Vertex)
    requires { i * numbers_per_vertex + numbers_per_vertex ≤ length numbers.old }
    ensures { numbers.new ≡ put vertex_number_layout numbers.old i v }
{
    let a = i * NUMBERS_PER_VERTEX;
    match v {
        Vertex::Given { .. } => {
            numbers[a] = 0;
        }
        Vertex::Pending { curve, .. } => {
            numbers[a] = 1;
            numbers[a + CURVE_KIND] = kind_of(curve);
            numbers[a + VERTEX_CURVE] = number_of(curve);
        }
    }
}

fn put_vertex_floats(floats: &mut [f64], i: usize, v: Vertex)
    requires { i * floats_per_vertex + floats_per_vertex ≤ length floats.old }
    ensures { floats.new ≡ put vertex_float_layout floats.old i v }
{
    let b = i * FLOATS_PER_VERTEX;
    match v {
        Vertex::Given { x, y, z } => {
            floats[b] = x;
            floats[b + 1] = y;
            floats[b + 2] = z;
        }
        Vertex::Pending { curve, t } => {
            put_curve(floats, b, curve);
            floats[b + PARAMETER] = t;
        }
    }
}

// The vertex v is written to row i.
fn put_vertex(numbers: &mut [u32], floats: &mut [f64], i: usize, v: Vertex)
    requires { HasVertex numbers.old floats.old i }
    ensures numbers_after { numbers.new ≡ put vertex_number_layout numbers.old i v }
    ensures floats_after { floats.new ≡ put vertex_float_layout floats.old i v }
{
    put_vertex_numbers(numbers, i, v);
    put_vertex_floats(floats, i, v);
}

// ---- room for a result

// n uses are within their bound, and a place is lent for each.
pub fn uses_fit(uses: &[u32], n: usize) -> bool
    ensures { result ≡ uses_fit uses.now n }
{
    let a = n <= 1024;
    let b = n <= uses.len();
    a & b
}

// ---- runs of numbers

// The numbers of `from` are written over the front of `to`. A loop and no `copy_from_slice`: where the compiler can't see that two slices lie apart, that
// calls memmove, and hosts link memcpy and memset alone.
pub fn copy(from: &[u32], to: &mut [u32])
    requires { length from.now ≤ length to.old }
    ensures { to.new ≡ from.now ++ drop (length from.now) to.old }
{
    for i in 0..from.len() {
        to[i] = from[i];
    }
}
