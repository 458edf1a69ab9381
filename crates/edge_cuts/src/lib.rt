// One edge cut at its cuts, one or several: what the call of document 01 and that of document 02, A.1, share. They differ in how many cuts they accept.
#![tactic(auto)]

pub mod cuts;
mod laying;

ghost use Rattle.std.specs.Prelude.{◌≡◌, ◌≤◌, get_or};
ghost use Rattle.std.specs.Float.{nan};
ghost use Rattle.compress.specs.Refusals.{cause_of};
ghost use Rattle.rows.specs.Places.{SameTable, SameWires};
ghost use Rattle.cutting.specs.Lent.{lent, left};
ghost use Rattle.edge_cuts.specs.cuts.Cuts.{cuts_in};
ghost use Rattle.edge_cuts.specs.Contract.{edge_cuts_cause, points_outcome};

use crate::cuts::EdgeCuts;
use compress::{Checked, Counts, Edge, FLOATS_PER_EDGE, Refusal, T0, T1, Vertex};
use pieces::Pieces;
use rows::lent::WiresMut;
use rows::tables::TableMut;

// ---- causes

// Cell i, and NaN past the end, as the definition of the causes has it: the edge's number is then past the table too, which is the lower cause.
// `pipe_shell::notation::at` is the same of numbers, for the programs: one function for both would be std's two calls again.
fn float_at(floats: &[f64], i: usize) -> f64
    ensures { result ≡ get_or floats.now i nan }
{
    floats.get(i).copied().unwrap_or(f64::NAN)
}

// Causes 1 to 5, over all that is lent. Tables and wires come as they are to be written, though they are only read here, since `lent` is defined of those.
pub fn edge_cuts_cause(
    vertices: &TableMut<Vertex>,
    edges: &TableMut<Edge>,
    wires: &WiresMut,
    cuts: &EdgeCuts,
) -> Checked
    ensures { let l = lent vertices.now edges.now wires.now in
        cause_of result ≡ edge_cuts_cause l cuts.now.edge cuts.now.floats.now cuts.now.count }
{
    let b = cuts.edge as usize * FLOATS_PER_EDGE;
    let t0 = float_at(edges.floats, b + T0);
    let t1 = float_at(edges.floats, b + T1);
    let shell = cutting::input_cause(&vertices.view(), &edges.view(), &wires.view());
    let number = checks::edge_number(edges.count, cuts.edge);
    let c = cuts.cause(t0, t1);
    checks::lower(shell, checks::lower(number, c))
}

// ---- the cutting

// The edge of a shell is cut at its cuts, where the call has none of the causes 1 to 5. No cut changes nothing. Nothing lent is written before the room for
// all of the result is judged.
pub fn cut_checked(
    vertices: &mut TableMut<Vertex>,
    edges: &mut TableMut<Edge>,
    wires: &mut WiresMut,
    cuts: &EdgeCuts,
) -> Result<Counts, Refusal>
    requires checked { let l = lent vertices.old edges.old wires.old in
        edge_cuts_cause l cuts.now.edge cuts.now.floats.now cuts.now.count ≡ 0 }
    requires few { cuts.now.count ≤ 64 }
    ensures outcome { let l = lent vertices.old edges.old wires.old in
        left result vertices.new edges.new wires.new ≡ points_outcome l cuts.now.edge (cuts_in cuts.now) }
    ensures same_vertices { SameTable vertices.old vertices.new }
    ensures same_edges { SameTable edges.old edges.new }
    ensures same_wires { SameWires wires.old wires.new }
{
    let count = cuts.count;
    if count == 0 {
        return Ok(Counts {
            vertices: vertices.count,
            edges: edges.count,
            uses: wires.view().total_uses(),
        });
    }
    let room = cutting::cut_room(&vertices.view(), &edges.view());
    let pieces = Pieces {
        edge: cuts.edge,
        first: edges.count as u32,
        cuts: count,
    };
    let uses = pieces::mend_wires(wires, pieces, count <= room)?;
    laying::put_points(vertices, cuts);
    laying::put_pieces(edges, cuts, vertices.count);
    Ok(Counts {
        vertices: vertices.count + count,
        edges: edges.count + count,
        uses,
    })
}
