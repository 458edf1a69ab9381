// Document 01's "Join": two open wires and the first new wire that holds v0 become one wire, which replaces the new one.

ghost use Rattle.std.specs.Prelude.{◌≡◌, ◌+◌, ◌≤◌, ◌<◌, length, set};
ghost use Rattle.rows.specs.Held.{wires_held, edges_in};
ghost use Rattle.rows.specs.Places.{SameWires};
ghost use Rattle.rows.specs.wires.Turn.{turned};
ghost use Rattle.join.specs.laying.Steps.{Lying};
ghost use Rattle.join.specs.joined.Joined.{joined_to};
ghost use Rattle.join.specs.joined.Outcome.{leaves_stored, stored_in, left, left_by};
ghost use Rattle.join.specs.joined.Steps.{Joinable, replaced_in};

use crate::laying;
use crate::laying::Joint;
use crate::laying::turned::TurnedWire;
use compress::Refusal;
use rows::lent::WiresMut;
use std::ops::Range;

// The uses in `place` are replaced by `joined`, and the `rest` uses behind them come to stand behind it.
fn replace_uses(uses: &mut [u32], place: Range<usize>, rest: usize, joined: &[u32])
    requires in_order { place.start ≤ place.end }
    requires lent { (place.end + rest ≤ length uses.old) × (place.start + length joined.now + rest ≤ length uses.old) }
    ensures { uses.new ≡ replaced_in uses.old place.start place.end rest joined.now }
{
    let behind = place.start + joined.len();
    uses.copy_within(place.end..place.end + rest, behind);
    uses[place.start..behind].copy_from_slice(joined);
}

// The wire w is replaced by `joined`, where there is room: how many uses the wires have then.
fn replace_wire(wires: &mut WiresMut, w: usize, joined: &[u32]) -> Result<usize, Refusal>
    requires lies { Lying wires.old.uses.now wires.old.lengths.now wires.old.count }
    requires w_in_bounds { w < wires.old.count }
    requires joined_few { length joined.now ≤ 1024 }
    ensures stored { let replaced = set (wires_held wires.old) w joined.now in
        leaves_stored result wires.new.uses.now wires.new.lengths.now ≡ stored_in wires.old.uses.now wires.old.lengths.now replaced }
    ensures same { SameWires wires.old wires.new }
{
    let lent = wires.view();
    let place = lent.place(w);
    let rest = lent.total_uses() - place.end;
    let count = place.start + joined.len() + rest;
    if !rows::uses_fit(lent.uses, count) {
        return Err(Refusal::NoRoom);
    }
    replace_uses(wires.uses, place, rest, joined);
    wires.lengths[w] = joined.len() as u32;
    Ok(count)
}

// The first open wire, turned, and the second are joined with the first new wire that holds v0.
pub fn join_turned(
    joint: &Joint,
    first: &TurnedWire,
    second: &[u32],
    wires: &mut WiresMut,
) -> Result<Option<usize>, Refusal>
    requires joinable { Joinable joint.now.edges first.now.wire.now second.now wires.old }
    ensures outcome { let j = joint.now in
        let es = edges_in j.edges in
        let first_turned = turned first.now.by first.now.wire.now in
        left result wires.new ≡ left_by wires.old (joined_to es j.v0 j.v1 first_turned second.now (wires_held wires.old)) }
    ensures same { SameWires wires.old wires.new }
{
    let lent = wires.view();
    let Some(by) = laying::find_index(&joint.edges, second, joint.v1) else {
        return Ok(None);
    };
    let Some(w) = laying::find_wire(&joint.edges, &lent, joint.v0) else {
        return Ok(None);
    };
    let wire = &lent.uses[lent.place(w)];
    let second = TurnedWire { wire: second, by };
    let mut out = [0u32; 1024];
    let Some(n) = laying::lay_joined(joint, first, &second, wire, &mut out) else {
        return Ok(None);
    };
    let count = replace_wire(wires, w, &out[..n])?;
    Ok(Some(count))
}
