// The pieces of one edge that was cut, put into the wires: `insert_new_edges` of document 000, for any number of cuts (document 02, A.1).
#![tactic(auto)]

ghost use Rattle.std.specs.Prelude.{◌≡◌, ◌+◌, ◌*◌, ◌/◌, ◌≤◌, length, take, count_by};
ghost use Rattle.std.specs.List.{range_with_len};
ghost use Rattle.std.proofs.lemmas.List.Edits.{sets};
ghost use Rattle.compress.specs.Wires.{total, lengths_of, uses_of, over};
ghost use Rattle.rows.specs.Held.{wires_in, wires_held};
ghost use Rattle.rows.specs.Places.{SameWires};
ghost use Rattle.rows.specs.wires.Connected.{replaced};
ghost use Rattle.checks.specs.Causes.{wires_cause};
ghost use Rattle.cutting.specs.mending.Steps.{InPlace};
ghost use Rattle.pieces.specs.Pieces.{chain_forward, chain_backwards, is_of, uses_for, mended, parts_by, Small};

use cutting::mending::NoRoom;
use rows::lent::{Wires, WiresMut};

// The pieces of an edge that is cut so many times: the edge itself, and the edges from `first` on, along its curve.
#[derive(Clone, Copy)]
pub struct Pieces {
    pub edge: u32,
    pub first: u32,
    pub cuts: usize,
}

// ---- one use

// The edges cut off, forward, are written over the front of `out`.
fn put_forward(p: Pieces, out: &mut [u32])
    requires few { Small p }
    requires room { p.cuts ≤ length out.old }
    ensures { out.new ≡ over (chain_forward (range_with_len p.first p.cuts)) out.old }
{
    for j in 0..p.cuts {
        out[j] = (p.first + j as u32) * 2;
    }
}

// The same backwards: the last one first.
fn put_backwards(p: Pieces, out: &mut [u32])
    requires few { Small p }
    requires room { p.cuts ≤ length out.old }
    ensures { out.new ≡ over (chain_backwards (range_with_len p.first p.cuts)) out.old }
{
    for j in 0..p.cuts {
        out[p.cuts - 1 - j] = (p.first + j as u32) * 2 + 1;
    }
}

// The chain that stands for a use of the edge is written over the front of `out`.
fn put_chain(u: u32, p: Pieces, out: &mut [u32])
    requires few { Small p }
    requires of_edge { u / 2 ≡ p.edge }
    requires room { p.cuts + 1 ≤ length out.old }
    ensures { out.new ≡ over (uses_for (parts_by p) u) out.old }
{
    if u % 2 == 0 {
        out[0] = u;
        put_forward(p, &mut out[1..]);
        return;
    }
    put_backwards(p, out);
    out[p.cuts] = u;
}

// What stands for the use u is written from place `at` on, and the place after it is the answer.
fn put_use(u: u32, p: Pieces, out: &mut [u32], at: usize) -> usize
    requires few { Small p }
    requires room { at + length (uses_for (parts_by p) u) ≤ length out.old }
    ensures { let row = uses_for (parts_by p) u in
        (result ≡ at + length row) × (out.new ≡ sets out.old at row) }
{
    if u / 2 != p.edge {
        out[at] = u;
        return at + 1;
    }
    put_chain(u, p, &mut out[at..]);
    at + p.cuts + 1
}

// ---- wires

// `insert_new_edges`: the wire is written to `out` with the pieces put in at each use of the edge, and its length is the answer. All wires of a shell stand
// one after the other, and are written as one.
fn insert_new_edges(wire: &[u32], p: Pieces, out: &mut [u32]) -> usize
    requires few { Small p }
    requires room { length (replaced (uses_for (parts_by p)) wire.now) ≤ length out.old }
    ensures value { result ≡ length (replaced (uses_for (parts_by p)) wire.now) }
    ensures out_after { take result out.new ≡ replaced (uses_for (parts_by p)) wire.now }
{
    let mut at: usize = 0;
    for &u in wire {
        at = put_use(u, p, out, at);
    }
    at
}

// How often an edge is used in a wire, in either direction.
fn occurrences(wire: &[u32], edge: u32) -> u32
    requires { length wire.now ≤ 1024 }
    ensures { result ≡ count_by (is_of edge) wire.now }
{
    // With no way out and no sum that could stop: so several uses are looked at at a time.
    wire.iter()
        .fold(0, |n: u32, u| n.wrapping_add(u32::from(*u / 2 == edge)))
}

// How many uses the wire has with the pieces put in.
fn mended_length(wire: &[u32], p: Pieces) -> usize
    requires { (length wire.now ≤ 1024) × Small p }
    ensures { result ≡ length (replaced (uses_for (parts_by p)) wire.now) }
{
    wire.len() + p.cuts * occurrences(wire, p.edge) as usize
}

// The lengths of all wires with the pieces put in are written to `lengths`, and the answer is how many uses they have.
fn mended_lengths(wires: &Wires, p: Pieces, lengths: &mut [u32]) -> usize
    requires few { Small p }
    requires wires_value { wires_cause p.first wires.now.uses.now wires.now.lengths.now wires.now.count ≡ 0 }
    requires room { length lengths.old ≡ 64 }
    ensures value { result ≡ length (uses_of (mended (parts_by p) (wires_in wires.now))) }
    ensures lengths_after { take wires.now.count lengths.new ≡ lengths_of (mended (parts_by p) (wires_in wires.now)) }
{
    let mut n: usize = 0;
    for (w, wire) in wires.each().enumerate() {
        let size = mended_length(wire, p);
        lengths[w] = size as u32;
        n += size;
    }
    n
}

// The first `count` uses are replaced in place, by way of a buffer of N uses.
fn replace_within<const N: usize>(uses: &mut [u32], count: usize, p: Pieces)
    requires few { Small p }
    requires lies { (count ≤ length uses.old) × (N ≤ 1024) }
    requires room { let row = replaced (uses_for (parts_by p)) (take count uses.old) in
        (length row ≤ N) × (length row ≤ length uses.old) }
    ensures { uses.new ≡ over (replaced (uses_for (parts_by p)) (take count uses.old)) uses.old }
{
    let mut out = [0u32; N];
    let n = insert_new_edges(&uses[..count], p, &mut out);
    rows::copy(&out[..n], uses);
}

// The same by a buffer that is large enough for n uses: few have a small one, since to zero it takes time.
fn replace_uses(uses: &mut [u32], count: usize, n: usize, p: Pieces)
    requires few { Small p }
    requires lies { count ≤ length uses.old }
    requires room { (n ≡ length (replaced (uses_for (parts_by p)) (take count uses.old))) × (n ≤ 1024) × (n ≤ length uses.old) }
    ensures { uses.new ≡ over (replaced (uses_for (parts_by p)) (take count uses.old)) uses.old }
{
    if n <= 128 {
        replace_within::<128>(uses, count, p);
    } else {
        replace_within::<1024>(uses, count, p);
    }
}

// Every wire is mended in place, where there is room for all of them: `room` tells it of the tables, and the uses are counted and judged before one is
// written, since 1,024 may become 66,560.
pub fn mend_wires(wires: &mut WiresMut, p: Pieces, room: bool) -> Result<usize, NoRoom>
    requires few { Small p }
    requires wires_value { wires_cause p.first wires.old.uses.now wires.old.lengths.now wires.old.count ≡ 0 }
    ensures mended { let w = wires.old in
        let mended = mended (parts_by p) (wires_held w) in
        InPlace mended room w.uses.now w.lengths.now wires.new.uses.now wires.new.lengths.now result }
    ensures same { SameWires wires.old wires.new }
{
    let mut lengths = [0u32; 64];
    let lent = wires.view();
    let (count, total) = (lent.count, lent.total_uses());
    let n = mended_lengths(&lent, p, &mut lengths);
    let fits = room & rows::uses_fit(lent.uses, n);
    if !fits {
        return Err(NoRoom { uses: n });
    }
    replace_uses(wires.uses, total, n, p);
    rows::copy(&lengths[..count], wires.lengths);
    Ok(n)
}
