// Document 01's "Join" (`connect_open_boundaries`): two open wires and one of the new wires become one wire.
#![tactic(auto)]

mod joined;
mod laying;

ghost use Rattle.std.specs.Prelude.{◌≡◌, ◌≤◌, ◌<◌, length};
ghost use Rattle.compress.specs.Refusals.{cause_of};
ghost use Rattle.rows.specs.Held.{wires_held, edges_in};
ghost use Rattle.rows.specs.Places.{SameWires};
ghost use Rattle.join.specs.joined.Outcome.{left, left_by};
ghost use Rattle.join.specs.joined.Steps.{Joinable};
ghost use Rattle.join.specs.Join.{connected_at, connected};
ghost use Rattle.join.specs.Contract.{join_wires_cause, empty_cause, join_cause, join_outcome};
ghost use Rattle.join.specs.Lent.{lent, lent_mut};

use crate::laying::Joint;
use crate::laying::turned::TurnedWire;
use compress::{Checked, Edge, Refusal};
use rows::lent::{Stretch, Wires, WiresMut};
use rows::tables::Table;

// By index, the place of v0 in the open wire that holds it: where it is not 0, the two open wires change places. The Rust's number i says which of
// the two holds it, 0 or 1, and how far the first is turned: one number for both, as the definition has it, since an enum would be made a number again.
fn connect_at(
    joint: &Joint,
    first: &[u32],
    second: &[u32],
    wires: &mut WiresMut,
    i: usize,
    index: usize,
) -> Result<Option<usize>, Refusal>
    requires joinable { Joinable joint.now.edges first.now second.now wires.old }
    requires i_in_bounds { (i ≤ length first.now) × (i ≤ length second.now) }
    ensures outcome { let j = joint.now in
        let es = edges_in j.edges in
        left result wires.new ≡ left_by wires.old (connected_at es j.v0 j.v1 first.now second.now (wires_held wires.old) i index) }
    ensures same { SameWires wires.old wires.new }
{
    if index == 0 {
        let first = TurnedWire { wire: first, by: i };
        return joined::join_turned(joint, &first, second, wires);
    }
    let second = TurnedWire {
        wire: second,
        by: i,
    };
    joined::join_turned(joint, &second, first, wires)
}

// The join of an input that has no cause.
fn connect_checked(
    joint: &Joint,
    first: &[u32],
    second: &[u32],
    wires: &mut WiresMut,
) -> Result<Option<usize>, Refusal>
    requires joinable { Joinable joint.now.edges first.now second.now wires.old }
    requires not_empty { (0 < length first.now) × (0 < length second.now) }
    ensures outcome { let j = joint.now in
        let es = edges_in j.edges in
        left result wires.new ≡ left_by wires.old (connected es j.v0 j.v1 first.now second.now (wires_held wires.old)) }
    ensures same { SameWires wires.old wires.new }
{
    if let Some(index) = laying::find_index(&joint.edges, first, joint.v0) {
        return connect_at(joint, first, second, wires, 0, index);
    }
    if let Some(index) = laying::find_index(&joint.edges, second, joint.v0) {
        return connect_at(joint, first, second, wires, 1, index);
    }
    Ok(None)
}

// Causes 1 and 3 of all wires of a join. The two open wires are two parameters here and elsewhere, as the call has them: a pair would be taken apart at
// each use.
fn join_wires_cause(edges: usize, first: &Stretch, second: &Stretch, wires: &Wires) -> Checked
    ensures { let a = first.now in
        let b = second.now in
        let w = wires.now in
        cause_of result ≡ join_wires_cause edges a.uses.now a.count b.uses.now b.count w.uses.now w.lengths.now w.count }
{
    let a = first.lent_uses().ok_or(Refusal::Malformed)?;
    let b = second.lent_uses().ok_or(Refusal::Malformed)?;
    let new = wires.lent_uses().ok_or(Refusal::Malformed)?;
    checks::count(62, wires.count)?;
    checks::count(1024, a.len() + b.len() + new.len())?;
    let of_new = checks::uses(edges, new);
    checks::lower(
        checks::uses(edges, a),
        checks::lower(checks::uses(edges, b), of_new),
    )
}

fn empty_cause(n: usize, m: usize) -> Checked
    ensures { cause_of result ≡ empty_cause n m }
{
    checks::lower(
        checks::cause_when(n == 0, Refusal::EmptyOpenWire),
        checks::cause_when(m == 0, Refusal::EmptyOpenWire),
    )
}

fn join_cause(
    vertices: usize,
    edges: &Table<Edge>,
    first: &Stretch,
    second: &Stretch,
    wires: &Wires,
    v0: u32,
    v1: u32,
) -> Checked
    ensures { cause_of result ≡ join_cause (lent vertices edges.now first.now second.now wires.now v0 v1) }
{
    let v = checks::count(4096, vertices);
    let e = checks::tables::edges(vertices, edges);
    let a = checks::vertex_number(vertices, v0);
    let b = checks::vertex_number(vertices, v1);
    let w = join_wires_cause(edges.count, first, second, wires);
    let empty = empty_cause(first.count, second.count);
    let of_wires = checks::lower(w, empty);
    checks::lower(
        v,
        checks::lower(e, checks::lower(a, checks::lower(b, of_wires))),
    )
}

// `connect_open_boundaries`: the new wires are updated in place, with their lengths. "None" and a refusal change nothing lent.
pub fn connect_open_boundaries(
    vertices: usize,
    edges: &Table<Edge>,
    first: &Stretch,
    second: &Stretch,
    wires: &mut WiresMut,
    v0: u32,
    v1: u32,
) -> Result<Option<usize>, Refusal>
    ensures outcome { left result wires.new ≡ join_outcome (lent_mut vertices edges.now first.now second.now wires.old v0 v1) }
    ensures same { SameWires wires.old wires.new }
{
    join_cause(vertices, edges, first, second, &wires.view(), v0, v1)?;
    let n = first.count;
    let m = second.count;
    let joint = Joint {
        edges: *edges,
        v0,
        v1,
    };
    connect_checked(&joint, &first.uses[..n], &second.uses[..m], wires)
}
