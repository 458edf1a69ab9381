// `add_edges` of document 001: every edge with equal ends is cut k eighths of the way along its curve, in the tables; and the map that tells which
// edges were cut.

ghost use Rattle.std.specs.Prelude.{◌≡◌, true, List, Float, ◌+◌, ◌*◌, ◌≤◌, ◌<◌, length};
ghost use Rattle.compress.specs.Records.{closed};
ghost use Rattle.checks.specs.Causes.{curve_cause, vertex_cause};
ghost use Rattle.cutting.specs.cut_edge.Cut.{pending_of};
ghost use Rattle.cutting.specs.parameter.Eighths.{parameter_of};
ghost use Rattle.rows.specs.Held.{edge_in};
ghost use Rattle.rows.specs.Places.{SameTable};
ghost use Rattle.compress.specs.Layout.{rows};
ghost use Rattle.compress.specs.Rows.{HasEdge, numbers_per_edge, edge_at, edge_number_layout, edge_float_layout, vertex_number_layout, vertex_float_layout};
ghost use Rattle.split_closed_edges.specs.add_edges.Add.{next};
ghost use Rattle.split_closed_edges.specs.add_edges.Steps.{cut_rows, pending_row, PlaceFor, Addable, Added, Marked};

use compress::{Edge, NUMBERS_PER_EDGE, Vertex};
use rows::tables::{Table, TableMut};

// ---- the tables

// One turn of `add_edges`: where edge i is closed it is cut by vertex n, k eighths of the way along its curve, and its second half becomes edge m.
fn add_edge(
    vertices: &mut TableMut<Vertex>,
    edges: &mut TableMut<Edge>,
    i: usize,
    n: usize,
    m: usize,
    k: u32,
) -> bool
    requires i_in_bounds { HasEdge edges.old.numbers.now edges.old.floats.now i }
    requires place_for { let v = vertices.old in
        let e = edges.old in
        closed (edge_in e i) ≡ true → PlaceFor n m v.numbers.now v.floats.now e.numbers.now e.floats.now }
    ensures value { result ≡ closed (edge_in edges.old i) }
    ensures accepted { let e = edge_in edges.old i in
        result ≡ true → curve_cause e.curve ≡ 0 → vertex_cause (pending_of (parameter_of k) e) ≡ 0 }
    ensures vertex_numbers_after { let e = edge_in edges.old i in
        vertices.new.numbers.now ≡ pending_row vertex_number_layout (parameter_of k) result n e vertices.old.numbers.now }
    ensures vertex_floats_after { let e = edge_in edges.old i in
        vertices.new.floats.now ≡ pending_row vertex_float_layout (parameter_of k) result n e vertices.old.floats.now }
    ensures edge_numbers_after { let e = edge_in edges.old i in
        edges.new.numbers.now ≡ cut_rows edge_number_layout (parameter_of k) result n i m e edges.old.numbers.now }
    ensures edge_floats_after { let e = edge_in edges.old i in
        edges.new.floats.now ≡ cut_rows edge_float_layout (parameter_of k) result n i m e edges.old.floats.now }
    ensures same_vertices { SameTable vertices.old vertices.new }
    ensures same_edges { SameTable edges.old edges.new }
{
    let e = edges.view().at(i);
    if e.front != e.back {
        return false;
    }
    let mut first = e;
    let second = cutting::cut_edge::cut_edge(&mut first, k, n as u32);
    vertices.put(n, cutting::cut_edge::pending(e, k));
    edges.put(i, first);
    edges.put(m, second);
    true
}

// `add_edges`: closed edges are cut in rising number, and appended ones are not looked at again. Rows are counted here and not in the tables, whose
// counts stay as they were lent: with a `push` that counts there, each function that writes a table would say besides what its count becomes, and
// `SameTable` would be two records. So in `cuts` and `seams` too.
pub fn add_edges(vertices: &mut TableMut<Vertex>, edges: &mut TableMut<Edge>, k: u32)
    requires { let v = vertices.old in
        let e = edges.old in
        Addable v.count e.count v.numbers.now v.floats.now e.numbers.now e.floats.now }
    ensures added { let v = vertices.old in
        let e = edges.old in
        Added (parameter_of k) v.count e.count v.numbers.now v.floats.now e.numbers.now e.floats.now
        vertices.new.numbers.now vertices.new.floats.now edges.new.numbers.now edges.new.floats.now }
    ensures same_vertices { SameTable vertices.old vertices.new }
    ensures same_edges { SameTable edges.old edges.new }
{
    let mut n = vertices.count;
    let mut m = edges.count;
    for i in 0..edges.count {
        if add_edge(vertices, edges, i, n, m, k) {
            n += 1;
            m += 1;
        }
    }
}

// ---- the map

// The map that `add_edges` gives: for each edge the number of the edge that is cut off it, and nothing where it is not closed.
// The answer is how many are closed.
// Of the edges the numbers are read, and lent as a table all the same: alone they would have a count beside them again.
pub fn mark_closed(edges: &Table<Edge>, added: &mut [Option<u16>]) -> usize
    requires { let e = edges.now in
        (e.count ≤ 4096) × (e.count * numbers_per_edge ≤ length e.numbers.now) × (e.count ≤ length added.old) }
    ensures { (fs : List Float) → Marked (rows (edge_at edges.now.numbers.now fs) 0 edges.now.count) added.old added.new result }
{
    let count = edges.count;
    let mut m = count as u16;
    // Written by number: over a zip with `iter_mut` the proof did not close, since what the loop wrote is not known after it.
    for (i, row) in edges.numbers[..count * NUMBERS_PER_EDGE]
        .chunks_exact(NUMBERS_PER_EDGE)
        .enumerate()
    {
        let cut = row[0] == row[1];
        added[i] = cut.then_some(m);
        m += u16::from(cut);
    }
    m as usize - count
}
