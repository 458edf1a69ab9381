// Causes 1 to 5 of document 01's table, with document 02's of a preparation, for tables of edges and of vertices: every row is checked, and the lowest number wins.

ghost use Rattle.std.specs.Prelude.{◌≡◌, true, false, ℕ, ◌+◌, ◌*◌, ◌≤◌, ◌<◌, eqb, length, get_or};
ghost use Rattle.std.specs.Float.{nan};
ghost use Rattle.compress.specs.Refusals.{cause_of};
ghost use Rattle.compress.specs.Rows.{floats_per_edge, floats_per_vertex, parameter_place, HasVertex, HasEdge, curve_at};
ghost use Rattle.compress.specs.Shell.{rows_fit};
ghost use Rattle.compress.specs.declared.Vertex.TheVariants.{Pending};
ghost use Rattle.checks.specs.Causes.{table_cause, range_cause, parameter_cause, uv_cause, curve_cause, vertex_cause, point_cause, curve_kind_cause, edge_row_cause, vertex_row_cause, edges_cause, vertices_cause};

use compress::{
    CURVE_KIND, Checked, EDGE_KIND, EDGE_PREPARATION, Edge, FLOATS_PER_EDGE, FLOATS_PER_VERTEX,
    NUMBERS_PER_EDGE, NUMBERS_PER_VERTEX, PARAMETER, Refusal, T0, T1, Uv, Vertex, Xyz,
};
use rows::tables::{Row, Table};

// ---- rows

fn edge_row(vertices: usize, edges: &Table<Edge>, i: usize) -> Checked
    requires { HasEdge edges.now.numbers.now edges.now.floats.now i }
    ensures { cause_of result ≡ edge_row_cause vertices edges.now.numbers.now edges.now.floats.now i }
{
    let a = i * NUMBERS_PER_EDGE;
    let k = crate::kind(edges.numbers[a + EDGE_KIND]);
    let p = crate::preparation(edges.numbers[a + EDGE_PREPARATION]);
    crate::lower(k, crate::lower(p, crate::edge(vertices, edges.at(i))))
}

// Kinds are judged as the numbers that are lent: the C interface.
fn curve_kind(kind: u32, curve_kind: u32) -> Checked
    ensures { cause_of result ≡ curve_kind_cause kind curve_kind }
{
    let pending = kind == 1;
    let unknown = curve_kind > 1;
    crate::cause_when(pending & unknown, Refusal::Malformed)
}

pub fn vertex_row(vertices: &Table<Vertex>, i: usize) -> Checked
    requires { HasVertex vertices.now.numbers.now vertices.now.floats.now i }
    ensures { cause_of result ≡ vertex_row_cause vertices.now.numbers.now vertices.now.floats.now i }
{
    let a = i * NUMBERS_PER_VERTEX;
    let k = crate::kind(vertices.numbers[a]);
    let c = curve_kind(vertices.numbers[a], vertices.numbers[a + CURVE_KIND]);
    crate::lower(k, crate::lower(c, crate::vertex(vertices.at(i))))
}

// ---- the first pass: tests that only say yes or no. After a yes a table is not read again; after a no its rows tell the cause. Beside the causes for
// speed, measured: full tables took 197,029 instructions with it, and 592,178 by the causes alone (docs/PERFORMANCE.md, "The first pass").

// Three comparisons: -1.0e15 is at most t0, t0 at most t1, t1 at most 1.0e15. So both are sized.
fn is_range_sound(t0: f64, t1: f64) -> bool
    ensures { result ≡ true → range_cause t0 t1 ≡ 0 }
{
    let above = t0 >= -1.0e15;
    let ordered = t0 <= t1;
    let under = t1 <= 1.0e15;
    above & ordered & under
}

// A parameter of a sound range.
fn is_parameter_sound(t0: f64, t1: f64, t: f64) -> bool
    ensures { result ≡ true → range_cause t0 t1 ≡ 0 → parameter_cause t0 t1 t ≡ 0 }
{
    let above = t0 <= t;
    let under = t <= t1;
    above & under
}

fn is_uv_sound(p: Uv) -> bool
    ensures { result ≡ true → uv_cause p ≡ 0 }
{
    floats::is_sized(p.u) & floats::is_sized(p.v)
}

// Whether a point has no cause.
pub(crate) fn is_point_sound(p: Xyz) -> bool
    ensures { result ≡ eqb (point_cause p.x p.y p.z) 0 }
{
    floats::is_sized(p.x) & floats::is_sized(p.y) & floats::is_sized(p.z)
}

// A curve whose six floats begin at b.
fn is_curve_sound(kind: u32, floats: &[f64], b: usize) -> bool
    requires { b + floats_per_edge ≤ length floats.now }
    ensures { result ≡ true → (kind ≤ 1) × ((n : ℕ) → curve_cause (curve_at kind n floats.now b) ≡ 0) }
{
    if !is_range_sound(floats[b + T0], floats[b + T1]) {
        return false;
    }
    if kind == 0 {
        return true;
    }
    if kind != 1 {
        return false;
    }
    is_uv_sound(Uv::read(floats, b)) & is_uv_sound(Uv::read(floats, b + 2))
}

// The edge of row i, between vertices of which there are at least `bound`.
fn is_edge_sound(bound: u32, edges: &Table<Edge>, i: usize) -> bool
    requires { HasEdge edges.now.numbers.now edges.now.floats.now i }
    ensures { result ≡ true → (v : ℕ) → bound ≤ v → edge_row_cause v edges.now.numbers.now edges.now.floats.now i ≡ 0 }
{
    let numbers = edges.numbers;
    let a = i * NUMBERS_PER_EDGE;
    if numbers[a] >= bound {
        return false;
    }
    if numbers[a + 1] >= bound {
        return false;
    }
    if numbers[a + EDGE_PREPARATION] > 2 {
        return false;
    }
    is_curve_sound(numbers[a + EDGE_KIND], edges.floats, i * FLOATS_PER_EDGE)
}

// Whether the curve of a pending vertex, of this kind and from place b on, and the parameter behind it have no cause.
fn is_pending_sound(kind: u32, floats: &[f64], b: usize) -> bool
    requires { b + floats_per_vertex ≤ length floats.now }
    ensures { result ≡ true → (kind ≤ 1) × ((n : ℕ) →
        vertex_cause (Pending (curve_at kind n floats.now b) (get_or floats.now (b + parameter_place) nan)) ≡ 0) }
{
    if !is_curve_sound(kind, floats, b) {
        return false;
    }
    is_parameter_sound(floats[b + T0], floats[b + T1], floats[b + PARAMETER])
}

fn is_vertex_sound(vertices: &Table<Vertex>, i: usize) -> bool
    requires { HasVertex vertices.now.numbers.now vertices.now.floats.now i }
    ensures { result ≡ true → vertex_row_cause vertices.now.numbers.now vertices.now.floats.now i ≡ 0 }
{
    let numbers = vertices.numbers;
    let floats = vertices.floats;
    let a = i * NUMBERS_PER_VERTEX;
    let b = i * FLOATS_PER_VERTEX;
    let kind = numbers[a];
    if kind == 0 {
        return is_point_sound(Xyz::read(floats, b));
    }
    if kind != 1 {
        return false;
    }
    is_pending_sound(numbers[a + CURVE_KIND], floats, b)
}

// ---- tables

// Whether `is_sound` says yes of every row: the first pass.
pub(crate) fn are_sound<S: Fn(usize) -> bool>(count: usize, is_sound: S) -> bool
    requires { (i : ℕ) → i < count → S.pre is_sound i }
    ensures yes { result ≡ true → (i : ℕ) → i < count → S.post is_sound i true }
    ensures no { result ≡ false → (i : ℕ) × (i < count) × S.post is_sound i false }
{
    let sound = |i|
        requires { S.pre is_sound i }
    { is_sound(i) };
    (0..count).all(sound)
}

// A table whose rows have the causes that `row` tells, none of them where `is_sound` says yes.
pub fn table<R: Row, S: Fn(usize) -> bool, C: Fn(usize) -> Checked>(
    rows: &Table<R>,
    is_sound: S,
    row: C,
) -> Checked
    requires is_sound_callable { let t = rows.now in
        rows_fit R.NUMBERS R.FLOATS t.numbers.now t.floats.now t.count ≡ true → (i : ℕ) → i < t.count → S.pre is_sound i }
    requires row_callable { let t = rows.now in
        rows_fit R.NUMBERS R.FLOATS t.numbers.now t.floats.now t.count ≡ true → (i : ℕ) → i < t.count → C.pre row i }
    ensures { let t = rows.now in
        (f : ℕ → ℕ) → ((i : ℕ) → i < t.count → S.post is_sound i true → f i ≡ 0) →
        ((i : ℕ) (r : _) → i < t.count → C.post row i r → cause_of r ≡ f i) →
        cause_of result ≡ table_cause R.NUMBERS R.FLOATS f t.numbers.now t.floats.now t.count }
{
    if !rows.fits(rows.count) {
        return Err(Refusal::Malformed);
    }
    if are_sound(rows.count, is_sound) {
        return Ok(());
    }
    crate::lowest_cause(rows.count, row)
}

// A table of edges between `vertices` vertices.
pub fn edges(vertices: usize, edges: &Table<Edge>) -> Checked
    ensures { cause_of result ≡ edges_cause vertices edges.now.numbers.now edges.now.floats.now edges.now.count }
{
    let bound = crate::narrow(vertices);
    // A table of its own: behind the reference it would be read again in each row.
    let edges = *edges;
    table(
        &edges,
        |i| is_edge_sound(bound, &edges, i),
        |i| edge_row(vertices, &edges, i),
    )
}

// A table of vertices.
pub fn vertices(vertices: &Table<Vertex>) -> Checked
    ensures { cause_of result ≡ vertices_cause vertices.now.numbers.now vertices.now.floats.now vertices.now.count }
{
    let vertices = *vertices;
    table(
        &vertices,
        |i| is_vertex_sound(&vertices, i),
        |i| vertex_row(&vertices, i),
    )
}
