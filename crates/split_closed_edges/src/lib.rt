// Document 001, `split_closed_edges.rs`: every edge with equal ends is cut k eighths of the way along its curve, and the wires are mended. The Rust's is
// the one for 4, at the middle.
#![tactic(auto)]

mod add_edges;

ghost use Rattle.std.specs.Prelude.{◌≡◌, ◌*◌, ◌≤◌, length};
ghost use Rattle.checks.specs.Causes.{wires_cause};
ghost use Rattle.rows.specs.Places.{SameTable, SameWires};
ghost use Rattle.cutting.specs.Contract.{input_cause};
ghost use Rattle.cutting.specs.Lent.{lent, left};
ghost use Rattle.cutting.specs.parameter.Eighths.{eighths_cause};
ghost use Rattle.split_closed_edges.specs.Steps.{closed_mended, ParametersWithin};
ghost use Rattle.split_closed_edges.specs.Contract.{outcome_of};
ghost use Rattle.compress.specs.Rows.{numbers_per_edge};

use compress::{Counts, Edge, Refusal, Vertex};
use cutting::mending::NoRoom;
use rows::lent::WiresMut;
use rows::tables::{Table, TableMut};

// How many edges are closed, and how many uses the mended wires have.
#[derive(Clone, Copy)]
struct Closing {
    cuts: usize,
    uses: usize,
}

// The wires are mended in place by the map of the closed edges, which is made in a table of N entries. `room` is how many cuts the tables of the
// shell have room for.
fn mend_within<const N: usize>(
    edges: &Table<Edge>,
    wires: &mut WiresMut,
    room: usize,
) -> Result<Closing, NoRoom>
    requires table { (edges.now.count ≤ N) × (N ≤ 4096) × (edges.now.count * numbers_per_edge ≤ length edges.now.numbers.now) }
    requires wires_value { wires_cause edges.now.count wires.old.uses.now wires.old.lengths.now wires.old.count ≡ 0 }
    ensures mended { closed_mended edges.now room wires.old wires.new result }
    ensures same { SameWires wires.old wires.new }
{
    let mut added = [None; N];
    let cuts = add_edges::mark_closed(edges, &mut added);
    let uses = cutting::mending::mend_wires(wires, &added[..edges.count], cuts <= room)?;
    Ok(Closing { cuts, uses })
}

// The same by a table that is large enough: few edges have a small one, since to fill it takes time.
fn mend_closed(edges: &Table<Edge>, wires: &mut WiresMut, room: usize) -> Result<Closing, NoRoom>
    requires table { (edges.now.count ≤ 4096) × (edges.now.count * numbers_per_edge ≤ length edges.now.numbers.now) }
    requires wires_value { wires_cause edges.now.count wires.old.uses.now wires.old.lengths.now wires.old.count ≡ 0 }
    ensures mended { closed_mended edges.now room wires.old wires.new result }
    ensures same { SameWires wires.old wires.new }
{
    if edges.count <= 64 {
        mend_within::<64>(edges, wires, room)
    } else {
        mend_within::<4096>(edges, wires, room)
    }
}

// The pass over a shell that has none of the causes 1 to 5, by a k from 1 to 7. Nothing lent is written before the room for all of the result is judged.
fn split_checked(
    vertices: &mut TableMut<Vertex>,
    edges: &mut TableMut<Edge>,
    wires: &mut WiresMut,
    k: u32,
) -> Result<Counts, Refusal>
    requires { (input_cause (lent vertices.old edges.old wires.old) ≡ 0) × (eighths_cause k ≡ 0) }
    ensures outcome { left result vertices.new edges.new wires.new ≡ outcome_of k (lent vertices.old edges.old wires.old) }
    ensures parameters { ParametersWithin result vertices.new }
    ensures same_vertices { SameTable vertices.old vertices.new }
    ensures same_edges { SameTable edges.old edges.new }
    ensures same_wires { SameWires wires.old wires.new }
{
    let room = cutting::cut_room(&vertices.view(), &edges.view());
    let m = mend_closed(&edges.view(), wires, room)?;
    add_edges::add_edges(vertices, edges, k);
    Ok(Counts {
        vertices: vertices.count + m.cuts,
        edges: edges.count + m.cuts,
        uses: m.uses,
    })
}

// `split_closed_edges`: every closed edge of the lent tables is cut, k eighths of the way along its curve, and every wire mended, in place.
// A refusal leaves all six slices as they were.
pub fn split_closed_edges(
    vertices: &mut TableMut<Vertex>,
    edges: &mut TableMut<Edge>,
    wires: &mut WiresMut,
    k: u32,
) -> Result<Counts, Refusal>
    ensures outcome { left result vertices.new edges.new wires.new ≡ outcome_of k (lent vertices.old edges.old wires.old) }
    ensures parameters { ParametersWithin result vertices.new }
    ensures same_vertices { SameTable vertices.old vertices.new }
    ensures same_edges { SameTable edges.old edges.new }
    ensures same_wires { SameWires wires.old wires.new }
{
    cutting::input_cause(&vertices.view(), &edges.view(), &wires.view())?;
    cutting::parameter::eighths_cause(k)?;
    split_checked(vertices, edges, wires, k)
}
