// Document 02, A.1: one edge is cut at up to 64 points in strictly rising parameter, and the wires are mended.
#![tactic(auto)]

ghost use Rattle.std.specs.Prelude.{◌≡◌, ◌*◌, ◌≤◌, length};
ghost use Rattle.compress.specs.Refusals.{cause_of};
ghost use Rattle.rows.specs.Places.{SameTable, SameWires};
ghost use Rattle.cutting.specs.Lent.{lent, left};
ghost use Rattle.edge_cuts.specs.cuts.Cuts.{floats_per_cut, cuts_in};
ghost use Rattle.several_cuts.specs.Contract.{order_cause, several_outcome};

use compress::{Checked, Counts, Edge, Refusal, Vertex};
use edge_cuts::cuts::EdgeCuts;
use rows::lent::WiresMut;
use rows::tables::TableMut;

// How many cuts a call may make.
const MOST_CUTS: usize = 64;

// 16 for more than 64 cuts, and 17 where their parameters do not rise strictly.
fn order_cause(cuts: &EdgeCuts) -> Checked
    requires { cuts.now.count * floats_per_cut ≤ length cuts.now.floats.now }
    ensures { cause_of result ≡ order_cause cuts.now.count (cuts_in cuts.now) }
{
    let many = cuts.count > MOST_CUTS;
    if many {
        return Err(Refusal::TooManyCuts);
    }
    checks::cause_when(!cuts.rises(), Refusal::NotRising)
}

// Edge (a, b) becomes a chain of pieces from a to b, the first under its number and the others appended, and every wire is mended, in place. No cut changes
// nothing. A refusal leaves all six slices as they were.
pub fn cut_edge_at_points(
    vertices: &mut TableMut<Vertex>,
    edges: &mut TableMut<Edge>,
    wires: &mut WiresMut,
    cuts: &EdgeCuts,
) -> Result<Counts, Refusal>
    ensures outcome { let l = lent vertices.old edges.old wires.old in
        left result vertices.new edges.new wires.new ≡ several_outcome l cuts.now.edge cuts.now.floats.now cuts.now.count }
    ensures same_vertices { SameTable vertices.old vertices.new }
    ensures same_edges { SameTable edges.old edges.new }
    ensures same_wires { SameWires wires.old wires.new }
{
    edge_cuts::edge_cuts_cause(vertices, edges, wires, cuts)?;
    order_cause(cuts)?;
    edge_cuts::cut_checked(vertices, edges, wires, cuts)
}
