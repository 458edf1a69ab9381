// Document 01's "One cut" (`cut_edge_by_intersections`, `insert_new_edges`): one edge is cut at a parameter, by a given point, and the wires
// are mended.
#![tactic(auto)]

ghost use Rattle.std.specs.Prelude.{◌≡◌};
ghost use Rattle.rows.specs.Places.{SameTable, SameWires};
ghost use Rattle.cutting.specs.Lent.{lent, left};
ghost use Rattle.one_cut.specs.Contract.{cut_outcome};

use compress::{Counts, Edge, Refusal, Vertex};
use edge_cuts::cuts::EdgeCuts;
use rows::lent::WiresMut;
use rows::tables::TableMut;

// `cut_edge_by_intersections` with `insert_new_edges`: no cut changes nothing, one cuts the edge and mends every wire, in place, and two or
// more are refused. A refusal leaves all six slices as they were. Each struct says for itself that it refers to the same slices, here and in the
// pass: one clause over all three would name the same six values.
pub fn cut_edge_by_intersections(
    vertices: &mut TableMut<Vertex>,
    edges: &mut TableMut<Edge>,
    wires: &mut WiresMut,
    cuts: &EdgeCuts,
) -> Result<Counts, Refusal>
    ensures outcome { let l = lent vertices.old edges.old wires.old in
        left result vertices.new edges.new wires.new ≡ cut_outcome l cuts.now.edge cuts.now.floats.now cuts.now.count }
    ensures same_vertices { SameTable vertices.old vertices.new }
    ensures same_edges { SameTable edges.old edges.new }
    ensures same_wires { SameWires wires.old wires.new }
{
    edge_cuts::edge_cuts_cause(vertices, edges, wires, cuts)?;
    let several = cuts.count > 1;
    if several {
        return Err(Refusal::SeveralCuts);
    }
    edge_cuts::cut_checked(vertices, edges, wires, cuts)
}
