// Wires, which are rows of uses: turning one, and copying several.

ghost use Rattle.std.specs.Prelude.{◌≡◌, ◌++◌, ◌≤◌, length, take, drop};
ghost use Rattle.compress.specs.Wires.{total};
ghost use Rattle.rows.specs.wires.Turn.{turned};

use crate::lent::Wires;

// `rotate_left`: the wire, turned so that its place `by` is 0, is written over the front of `out`. Two copies are faster than one and std's
// `rotate_left`, measured: 12 ns and 21 for 64 uses, 72 and 418 for 1,024.
pub fn rotate_left(wire: &[u32], by: usize, out: &mut [u32])
    requires { (by ≤ length wire.now) × (length wire.now ≤ length out.old) }
    ensures { out.new ≡ turned by wire.now ++ drop (length wire.now) out.old }
{
    let rest = wire.len() - by;
    crate::copy(&wire[by..], out);
    crate::copy(&wire[..by], &mut out[rest..]);
}

// The wires that were made are copied to `out`: "the unwritten rest of the lent use buffer is lent on for each next wire".
pub fn copy_wires(made: &Wires, out: &mut [u32])
    requires { let all = total (take made.now.count made.now.lengths.now) in
        (made.now.count ≤ length made.now.lengths.now) × (all ≤ length made.now.uses.now) × (all ≤ length out.old) }
    ensures { let all = total (take made.now.count made.now.lengths.now) in
        out.new ≡ take all made.now.uses.now ++ drop all out.old }
{
    let mut at: usize = 0;
    for wire in made.each() {
        crate::copy(wire, &mut out[at..]);
        at += wire.len();
    }
}
