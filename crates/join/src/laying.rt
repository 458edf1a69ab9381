// Document 01's "Join": the places of a vertex in wires, and the joined wire laid into a buffer.

pub mod turned;

ghost use Rattle.std.specs.Prelude.{◌≡◌, ◌++◌, ◌+◌, ◌≤◌, length, take, drop};
ghost use Rattle.compress.specs.Wires.{total};
ghost use Rattle.rows.specs.Held.{wires_in, edges_in};
ghost use Rattle.rows.specs.wires.Turn.{turned};
ghost use Rattle.join.specs.laying.Places.{found, index_of, place_in, holder_in, closed_by, joined_from};
ghost use Rattle.join.specs.laying.Steps.{Readable, Lying, Layable, laid, laid_size};

use compress::Edge;
use rows::lent::Wires;
use rows::tables::Table;
use turned::TurnedWire;

// Where two open wires and a new one are joined: at two vertices, over these edges.
#[derive(Clone, Copy)]
pub struct Joint<'a> {
    pub edges: Table<'a, Edge>,
    pub v0: u32,
    pub v1: u32,
}

// ---- places

// `find_index`: the place of the first use whose front is v.
pub fn find_index(edges: &Table<Edge>, wire: &[u32], v: u32) -> Option<usize>
    requires { Readable edges.now.numbers.now edges.now.floats.now wire.now }
    ensures { found result ≡ place_in (edges_in edges.now) v wire.now }
{
    wire.iter().position(|&u| edges.front(u) == v)
}

// The place of the first wire that has v as a front.
pub fn find_wire(edges: &Table<Edge>, wires: &Wires, v: u32) -> Option<usize>
    requires lies { Lying wires.now.uses.now wires.now.lengths.now wires.now.count }
    requires readable { let w = wires.now in
        Readable edges.now.numbers.now edges.now.floats.now (take (total (take w.count w.lengths.now)) w.uses.now) }
    ensures { found result ≡ holder_in (edges_in edges.now) v (wires_in wires.now) }
{
    wires
        .each()
        .position(|wire| find_index(edges, wire, v).is_some())
}

// ---- the joined wire

// The turned wire is written over `out` from place `at` on.
fn lay_turned(w: &TurnedWire, out: &mut [u32], at: usize)
    requires { at + length w.now.wire.now ≤ length out.old }
    ensures { out.new ≡ take at out.old ++ (turned w.now.by w.now.wire.now ++ drop (at + length w.now.wire.now) out.old) }
{
    rows::wires::rotate_left(w.wire, w.by, &mut out[at..]);
}

// The first open wire, and the new wire turned to v0 behind it, in the front of `out`.
fn lay_first(edges: &Table<Edge>, first: &TurnedWire, wire: &[u32], v0: u32, out: &mut [u32])
    requires room { (length first.now.wire.now + length wire.now ≤ length out.old) × (length out.old ≤ 1024) }
    requires readable { Readable edges.now.numbers.now edges.now.floats.now wire.now }
    ensures { let k = index_of (edges_in edges.now) v0 wire.now in
        take (length first.now.wire.now + length wire.now) out.new ≡ turned first.now.by first.now.wire.now ++ turned k wire.now }
{
    // A wire that does not have v0 stays as it is, by its length, as the definition `index_of` has it; the join looks for one that does.
    let by = find_index(edges, wire, v0).unwrap_or(wire.len());
    lay_turned(first, out, 0);
    lay_turned(&TurnedWire { wire, by }, out, first.wire.len());
}

// `wire` turned to v1, and the second open wire behind it, in the front of `out`. The answer is the length, where v1 is found.
fn lay_second(
    edges: &Table<Edge>,
    wire: &[u32],
    v1: u32,
    second: &TurnedWire,
    out: &mut [u32],
) -> Option<usize>
    requires room { (length wire.now + length second.now.wire.now ≤ length out.old) × (length out.old ≤ 1024) }
    requires readable { Readable edges.now.numbers.now edges.now.floats.now wire.now }
    ensures out_after { let second_turned = turned second.now.by second.now.wire.now in
        laid result out.new ≡ closed_by (edges_in edges.now) v1 wire.now second_turned }
    ensures size { laid_size result ≤ length wire.now + length second.now.wire.now }
    ensures out_unchanged { drop (laid_size result) out.new ≡ drop (laid_size result) out.old }
{
    let by = find_index(edges, wire, v1)?;
    lay_turned(&TurnedWire { wire, by }, out, 0);
    lay_turned(second, out, wire.len());
    Some(wire.len() + second.wire.len())
}

// The first open wire, the new wire turned to v0 behind it, all turned to v1, and the second open wire behind that, by way of `open`.
// The answer is the length, where v1 is found.
fn lay_through(
    joint: &Joint,
    first: &TurnedWire,
    second: &TurnedWire,
    wire: &[u32],
    out: &mut [u32; 1024],
    open: &mut [u32],
) -> Option<usize>
    requires layable { Layable joint.now.edges.numbers.now joint.now.edges.floats.now first.now second.now wire.now }
    requires room { (length first.now.wire.now + length wire.now ≤ length «open».old) × (length «open».old ≤ 1024) }
    ensures out_after { let j = joint.now in
        laid result out.new ≡ joined_from (edges_in j.edges) j.v0 j.v1 first.now second.now wire.now }
    ensures size { laid_size result ≤ 1024 }
    ensures out_unchanged { drop (laid_size result) out.new ≡ drop (laid_size result) out.old }
{
    lay_first(&joint.edges, first, wire, joint.v0, open);
    let n = first.wire.len() + wire.len();
    lay_second(&joint.edges, &open[..n], joint.v1, second, out)
}

// The same, by way of an array of its own: a small one where that has room, since to zero it takes time.
pub fn lay_joined(
    joint: &Joint,
    first: &TurnedWire,
    second: &TurnedWire,
    wire: &[u32],
    out: &mut [u32; 1024],
) -> Option<usize>
    requires layable { Layable joint.now.edges.numbers.now joint.now.edges.floats.now first.now second.now wire.now }
    ensures out_after { let j = joint.now in
        laid result out.new ≡ joined_from (edges_in j.edges) j.v0 j.v1 first.now second.now wire.now }
    ensures size { laid_size result ≤ 1024 }
    ensures out_unchanged { drop (laid_size result) out.new ≡ drop (laid_size result) out.old }
{
    if first.wire.len() + wire.len() <= 64 {
        let mut open = [0u32; 64];
        return lay_through(joint, first, second, wire, out, &mut open);
    }
    let mut open = [0u32; 1024];
    lay_through(joint, first, second, wire, out, &mut open)
}
