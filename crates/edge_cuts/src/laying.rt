// The pieces of one edge that is cut, and the points where it is cut, written to the tables. The counts of the tables stay as they were lent: rows are written
// past them, and the caller says what the counts become.

ghost use Rattle.std.specs.Prelude.{◌≡◌, ◌+◌, ◌*◌, ◌≤◌, ◌<◌, length};
ghost use Rattle.compress.specs.Layout.{store_from};
ghost use Rattle.compress.specs.Rows.{numbers_per_edge, floats_per_edge, edge_number_layout, edge_float_layout, numbers_per_vertex, floats_per_vertex, vertex_number_layout, vertex_float_layout};
ghost use Rattle.rows.specs.Held.{edge_in};
ghost use Rattle.rows.specs.Places.{SameTable};
ghost use Rattle.edge_cuts.specs.cuts.Cuts.{floats_per_cut, cuts_in};
ghost use Rattle.edge_cuts.specs.Cut.{pieces_at, points_of};
ghost use Rattle.edge_cuts.specs.laying.Laid.{laid_from};

use crate::cuts::EdgeCuts;
use compress::{Edge, Vertex};
use rows::tables::TableMut;

// The points of the cuts become the next vertices.
pub(crate) fn put_points(vertices: &mut TableMut<Vertex>, cuts: &EdgeCuts)
    requires vertex_rows { let v = vertices.old in
        let n = v.count + cuts.now.count in
        (n * numbers_per_vertex ≤ length v.numbers.now) × (n * floats_per_vertex ≤ length v.floats.now) }
    requires cut_rows { cuts.now.count * floats_per_cut ≤ length cuts.now.floats.now }
    ensures numbers_after { let v = vertices.old in
        vertices.new.numbers.now ≡ store_from vertex_number_layout v.numbers.now v.count (points_of (cuts_in cuts.now)) }
    ensures floats_after { let v = vertices.old in
        vertices.new.floats.now ≡ store_from vertex_float_layout v.floats.now v.count (points_of (cuts_in cuts.now)) }
    ensures same { SameTable vertices.old vertices.new }
{
    for j in 0..cuts.count {
        vertices.put(vertices.count + j, Vertex::from(cuts.at(j).point));
    }
}

// The edge is cut at the cuts, by the vertices n, n + 1 and so on: its first piece stays in its row, and the others become the next edges.
pub(crate) fn put_pieces(edges: &mut TableMut<Edge>, cuts: &EdgeCuts, n: usize)
    requires edge_rows { let e = edges.old in
        let m = e.count + cuts.now.count in
        (m * numbers_per_edge ≤ length e.numbers.now) × (m * floats_per_edge ≤ length e.floats.now) }
    requires cut_rows { cuts.now.count * floats_per_cut ≤ length cuts.now.floats.now }
    requires edge_row { (cuts.now.edge < edges.old.count) × (n ≤ 4096) × (cuts.now.count ≤ 64) }
    ensures numbers_after { let e = edges.old in
        let pieces = pieces_at (edge_in e cuts.now.edge) (cuts_in cuts.now) n in
        edges.new.numbers.now ≡ laid_from edge_number_layout e.numbers.now cuts.now.edge e.count pieces }
    ensures floats_after { let e = edges.old in
        let pieces = pieces_at (edge_in e cuts.now.edge) (cuts_in cuts.now) n in
        edges.new.floats.now ≡ laid_from edge_float_layout e.floats.now cuts.now.edge e.count pieces }
    ensures same { SameTable edges.old edges.new }
{
    let mut row = cuts.edge as usize;
    let mut rest = edges.view().at(row);
    for k in 0..cuts.count {
        let halves = cutting::cut_edge::both_halves(rest, cuts.at(k).t, (n + k) as u32);
        edges.put(row, halves.old);
        rest = halves.new;
        row = edges.count + k;
    }
    edges.put(row, rest);
}
