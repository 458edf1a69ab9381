// The tally of uses in the contours. No write is told to have failed: the printer passes over it.

ghost use Rattle.std.specs.Prelude.{IsOk};

use crate::notation::{Use, Wire};
use crate::{Shell, Wires, notation};
use printing::Onward;
use std::io;

// How many uses the six edges of the table have, both directions.
const USES: u32 = 12;

// The uses of all wires, or none where they are not there.
fn uses_of(w: &Wires) -> &[u32] {
    w.lent().lent_uses().unwrap_or(&[])
}

// Each use that is among these, and how often.
fn write_tally(rt: &Onward<impl Print>, uses: &[u32]) -> io::Result<()>
    ensures { IsOk result }
{
    for u in 0..USES {
        let found = notation::places(uses, u);
        if found != 0 {
            let written = Use(u);
            print!(rt; " {written} x{found}")?;
        }
    }
    println!(rt; "")
}

// Whether a use stands among these as often as among those that were to be rebuilt, once more where its edge is new: not among the
// first so many.
fn is_kept(uses: &[u32], rebuilt: &[u32], old: usize, u: u32) -> bool {
    let found = notation::places(uses, u);
    let before = notation::places(rebuilt, u);
    if (u as usize) / 2 < old {
        found == before
    } else {
        found.checked_sub(1) == Some(before)
    }
}

// Whether that holds of every use.
fn are_kept(uses: &[u32], rebuilt: &[u32], old: usize) -> bool {
    (0..USES).all(|u| is_kept(uses, rebuilt, old, u))
}

// One contour with its tally.
fn write_contour(rt: &Onward<impl Print>, k: usize, uses: &[u32]) -> io::Result<()>
    ensures { IsOk result }
{
    let wire = Wire(uses);
    let count = uses.len();
    print!(rt; "contour {k}:{wire}   tally of {count} uses:")?;
    write_tally(rt, uses)
}

// The contours, each with its tally.
#[tactic(auto, using(compress::proofs::Wires::length_wires))]
pub fn write_contours(rt: &Onward<impl Print>, s: &Shell) -> io::Result<()>
    ensures { IsOk result }
{
    for (k, uses) in s.wires.lent().each().enumerate() {
        write_contour(rt, k, uses)?;
    }
    Ok(())
}

// Whether the last split has kept every use of the shell before it.
pub fn write_kept(rt: &Onward<impl Print>, before: &Shell, s: &Shell) -> io::Result<()>
    ensures { IsOk result }
{
    let rebuilt = uses_of(&before.wires);
    let uses = uses_of(&s.wires);
    let n = uses.len();
    let m = rebuilt.len();
    print!(rt; "{n} uses, of which {m} were to be rebuilt: ")?;
    if are_kept(uses, rebuilt, before.edges.count) {
        println!(rt; "every use is kept")
    } else {
        println!(rt; "a use is lost or added")
    }
}
