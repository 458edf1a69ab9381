// Wires mended after their edges were cut: `replace_edges` of document 001, and all wires of a call mended in place where there is room.

ghost use Rattle.std.specs.Prelude.{◌≡◌, ℕ, ◌+◌, ◌*◌, ◌/◌, ◌≤◌, ◌<◌, length, get_or, take, None, IfSome};
ghost use Rattle.std.proofs.lemmas.List.Edits.{sets};
ghost use Rattle.compress.specs.declared.Refusal.TheVariants.{NoRoom};
ghost use Rattle.compress.specs.Wires.{total, UsesBelow};
ghost use Rattle.rows.specs.Held.{wires_in, wires_held};
ghost use Rattle.rows.specs.Places.{SameWires};
ghost use Rattle.checks.specs.Causes.{wires_cause};
ghost use Rattle.cutting.specs.mending.Parts.{uses_of_parts};
ghost use Rattle.cutting.specs.mending.Replace.{replace_use, replace_edges, replace_wires};
ghost use Rattle.cutting.specs.mending.Steps.{AreNumbers, Replaceable, Mended, InPlace, numbers_of};

use compress::Refusal;
use rows::lent::{Wires, WiresMut};

// The number of an edge, in as many bits as a map of edges gives it. An `Option` of a number has no niche here, so that the pass, whose numbers fit in 16
// bits, has half of the map that it has with 32, and clears half.
pub trait EdgeNumber: Copy {
    ghost number: { Self → ℕ };

    fn number(self) -> u32
        ensures { result ≡ number self };
}

impl EdgeNumber for u16 {
    ghost number = { λ n. n };

    fn number(self) -> u32 {
        u32::from(self)
    }
}

impl EdgeNumber for u32 {
    ghost number = { λ n. n };

    fn number(self) -> u32 {
        self
    }
}

// What stands in a wire for one use: the use, or it and that of the edge cut off, in their order.
#[derive(Clone, Copy)]
enum Parts {
    One(u32),
    Two(u32, u32),
}

// The use u, where `new` is the edge cut off its edge, if that was cut.
fn replace_use(u: u32, new: Option<u32>) -> Parts
    requires { IfSome new (λ m. m < 2147483648) }
    ensures { uses_of_parts result ≡ replace_use u new }
{
    let Some(new) = new else {
        return Parts::One(u);
    };
    if u % 2 == 0 {
        return Parts::Two(u, new * 2);
    }
    Parts::Two(new * 2 + 1, u)
}

// The uses are written from place `at` on, and the place after them is the answer. Local arrays and places in them, here, below and wherever a wire is
// built, by two rules of the project: document 01 names the form, and what hosts link stands on std alone (docs/DECISIONS.md), so no ArrayVec.
fn push(out: &mut [u32], at: usize, p: Parts) -> usize
    requires { at + 2 ≤ length out.old }
    ensures { (result ≡ at + length (uses_of_parts p)) × (out.new ≡ sets out.old at (uses_of_parts p)) }
{
    match p {
        Parts::One(a) => {
            out[at] = a;
            at + 1
        }
        Parts::Two(a, b) => {
            out[at] = a;
            out[at + 1] = b;
            at + 2
        }
    }
}

// The number of the edge that is cut off edge e, by the map.
fn cut_off<A: EdgeNumber>(added: &[Option<A>], e: usize) -> Option<u32>
    requires { e < length added.now }
    ensures { result ≡ get_or (numbers_of A.number added.now) e None }
{
    added[e].map(A::number)
}

// `replace_edges`: the mended wire is written to `out`, and its length is the answer.
fn replace_edges<A: EdgeNumber>(wire: &[u32], added: &[Option<A>], out: &mut [u32]) -> usize
    requires wire_in_bounds { length wire.now * 2 ≤ length out.old }
    requires by_index { UsesBelow (length added.now) wire.now }
    requires by_index_2 { AreNumbers (numbers_of A.number added.now) }
    ensures value { result ≡ length (replace_edges (numbers_of A.number added.now) wire.now) }
    ensures out_after { take result out.new ≡ replace_edges (numbers_of A.number added.now) wire.now }
{
    let mut k: usize = 0;
    for &u in wire {
        let e = (u / 2) as usize;
        k = push(out, k, replace_use(u, cut_off(added, e)));
    }
    k
}

// Every wire is mended: the uses go to `out` and the lengths to `out_lengths`. The answer is the count of uses.
fn replace_wires<A: EdgeNumber>(
    wires: &Wires,
    added: &[Option<A>],
    out: &mut [u32],
    out_lengths: &mut [u32],
) -> usize
    requires { let w = wires.now in
        Replaceable w.uses.now w.lengths.now w.count (numbers_of A.number added.now) out.old out_lengths.old }
    ensures { Mended (replace_wires (numbers_of A.number added.now) (wires_in wires.now)) out.new out_lengths.new result }
{
    let mut at: usize = 0;
    for (w, wire) in wires.each().enumerate() {
        let n = replace_edges(wire, added, &mut out[at..]);
        out_lengths[w] = n as u32;
        at += n;
    }
    at
}

// ---- in place

// There is no room for the uses of the mended wires, so many of them. The contract speaks of the count on both ways out.
#[derive(Clone, Copy)]
pub struct NoRoom {
    pub uses: usize,
}

impl From<NoRoom> for Refusal {
    ghost from_gives = { λ _ r. r ≡ NoRoom };

    fn from(_: NoRoom) -> Refusal {
        Refusal::NoRoom
    }
}

// The wires are mended in place by way of a buffer of N uses, and not at all where there is no room: how many uses they have.
fn mend_within<A: EdgeNumber, const N: usize>(
    wires: &mut WiresMut,
    added: &[Option<A>],
    room: bool,
) -> Result<usize, NoRoom>
    requires uses_few { (total (take wires.old.count wires.old.lengths.now) * 2 ≤ N) × (N ≤ 2048) }
    requires wires_value { wires_cause (length added.now) wires.old.uses.now wires.old.lengths.now wires.old.count ≡ 0 }
    requires added_small { AreNumbers (numbers_of A.number added.now) }
    ensures mended { let w = wires.old in
        let mended = replace_wires (numbers_of A.number added.now) (wires_held w) in
        InPlace mended room w.uses.now w.lengths.now wires.new.uses.now wires.new.lengths.now result }
    ensures same { SameWires wires.old wires.new }
{
    let mut out = [0u32; N];
    let mut out_lengths = [0u32; 64];
    let lent = wires.view();
    let count = lent.count;
    let n = replace_wires(&lent, added, &mut out, &mut out_lengths);
    let fits = room & rows::uses_fit(lent.uses, n);
    if !fits {
        return Err(NoRoom { uses: n });
    }
    rows::copy(&out[..n], wires.uses);
    rows::copy(&out_lengths[..count], wires.lengths);
    Ok(n)
}

// Every wire is mended in place, where there is room for all of them: `room` tells it of the tables, and the uses are judged here.
// `room` stays an argument: where it is false the count is told all the same. Few uses have a small buffer, since to zero it takes time. That the wires
// have no cause is asked here and at the two passes, and is no ghost field of `WiresMut`: the wires are written, and then name edges past that count.
pub fn mend_wires<A: EdgeNumber>(
    wires: &mut WiresMut,
    added: &[Option<A>],
    room: bool,
) -> Result<usize, NoRoom>
    requires wires_value { wires_cause (length added.now) wires.old.uses.now wires.old.lengths.now wires.old.count ≡ 0 }
    requires added_small { AreNumbers (numbers_of A.number added.now) }
    ensures mended { let w = wires.old in
        let mended = replace_wires (numbers_of A.number added.now) (wires_held w) in
        InPlace mended room w.uses.now w.lengths.now wires.new.uses.now wires.new.lengths.now result }
    ensures same { SameWires wires.old wires.new }
{
    let lent = wires.view();
    if lent.total_uses() <= 64 {
        mend_within::<A, 128>(wires, added, room)
    } else {
        mend_within::<A, 2048>(wires, added, room)
    }
}
