// Cause 7 of document 01's table, "any vertex lent .. is pending", and with it causes 1 to 5 of the tables that a call reads points from.

ghost use Rattle.std.specs.Prelude.{◌≡◌, eqb};
ghost use Rattle.compress.specs.Refusals.{cause_of};
ghost use Rattle.compress.specs.Rows.{HasVertex};
ghost use Rattle.checks.specs.Causes.{lower_of, vertex_row_cause, vertices_cause, pending_row_cause, pending_cause};
ghost use Rattle.checks.specs.points.Tables.{tables_cause};

use crate::tables;
use compress::{Checked, FLOATS_PER_VERTEX, NUMBERS_PER_VERTEX, Refusal, Vertex, Xyz};
use rows::tables::{Table, Tables};

// Whether the vertex of row i is given, and without a cause.
fn is_given_sound(vertices: &Table<Vertex>, i: usize) -> bool
    requires { HasVertex vertices.now.numbers.now vertices.now.floats.now i }
    ensures { let v = vertices.now in
        result ≡ eqb (lower_of (vertex_row_cause v.numbers.now v.floats.now i) (pending_row_cause v.numbers.now i)) 0 }
{
    if vertices.numbers[i * NUMBERS_PER_VERTEX] != 0 {
        return false;
    }
    tables::is_point_sound(Xyz::read(vertices.floats, i * FLOATS_PER_VERTEX))
}

// Cause 7 of the vertex in row i. A kind is judged as the number that is lent: the C interface.
fn pending_row(vertices: &Table<Vertex>, i: usize) -> Checked
    requires { HasVertex vertices.now.numbers.now vertices.now.floats.now i }
    ensures { cause_of result ≡ pending_row_cause vertices.now.numbers.now i }
{
    let kind = vertices.numbers[i * NUMBERS_PER_VERTEX];
    crate::cause_when(kind == 1, Refusal::PendingVertex)
}

// Whether a table has given vertices only, and no cause, 7 included, told in one pass. After a no its rows tell the causes.
fn are_points(vertices: &Table<Vertex>) -> bool
    ensures { let v = vertices.now in
        result ≡ eqb (lower_of (vertices_cause v.numbers.now v.floats.now v.count) (pending_cause v.numbers.now v.count)) 0 }
{
    let vertices = *vertices;
    if !vertices.fits(vertices.count) {
        return false;
    }
    tables::are_sound(vertices.count, |i| is_given_sound(&vertices, i))
}

// Causes 1 to 5 of both tables, and 7.
pub fn tables_cause(tables: &Tables) -> Checked
    ensures { let v = tables.now.vertices in
        let e = tables.now.edges in
        cause_of result ≡ tables_cause v.numbers.now v.floats.now e.numbers.now e.floats.now v.count e.count }
{
    let vertices = tables.vertices;
    let e = tables::edges(vertices.count, &tables.edges);
    if are_points(&vertices) {
        return e;
    }
    // No row is tested again.
    let v = tables::table(
        &vertices,
        |_| false,
        |i| crate::lower(tables::vertex_row(&vertices, i), pending_row(&vertices, i)),
    );
    crate::lower(v, e)
}
