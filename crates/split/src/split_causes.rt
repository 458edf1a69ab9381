// The causes of a split that are found before the walk.

ghost use Rattle.std.specs.Prelude.{◌≡◌, List, ℕ};
ghost use Rattle.compress.specs.Refusals.{cause_of};
ghost use Rattle.split.specs.split_causes.Causes.{split_wires_cause, room_cause, split_input_cause, split_cause};
ghost use Rattle.split.specs.split_causes.Lent.{lent};

use crate::seams;
use crate::seams::Divisor;
use compress::{Checked, Edge, Refusal};
use rows::lent::Wires;
use rows::tables::Table;

// Cause 6: `count` uses, and as many lengths, and `n` edges have no room.
#[tactic(auto, using(std::proofs::lemmas::Bool::Decides::nat_tests), unfolding(crate::specs::split_causes::Causes::room_cause, compress::specs::Shell::edges_fit, compress::specs::Shell::uses_fit))]
fn room_cause(edges: &Table<Edge>, uses: &[u32], lengths: &[u32], count: usize, n: usize) -> Checked
    ensures { cause_of result ≡ room_cause
        (record { en = edges.now.numbers.now; ef = edges.now.floats.now; us = uses.now; ls = lengths.now }) count n }
{
    if !rows::uses_fit(uses, count) || lengths.len() < count {
        return Err(Refusal::NoRoom);
    }
    checks::cause_when(!edges.fits(n), Refusal::NoRoom)
}

// Causes 1 and 3 of the face's wires and of those to be rebuilt.
fn split_wires_cause(edges: usize, face: &Wires, rebuilt: &Wires) -> Checked
    ensures { cause_of result ≡ split_wires_cause edges face.now.uses.now face.now.lengths.now face.now.count
        rebuilt.now.uses.now rebuilt.now.lengths.now rebuilt.now.count }
{
    let old = face.lent_uses().ok_or(Refusal::Malformed)?;
    let new = rebuilt.lent_uses().ok_or(Refusal::Malformed)?;
    checks::count(64, face.count + rebuilt.count)?;
    checks::count(1024, old.len() + new.len())?;
    checks::lower(checks::uses(edges, old), checks::uses(edges, new))
}

// Causes 1 to 5, over all that is lent.
#[tactic(auto, unfolding(crate::specs::split_causes::Causes::split_input_cause))]
fn split_input_cause(
    vertices: usize,
    edges: &Table<Edge>,
    face: &Wires,
    rebuilt: &Wires,
    divisor: &Divisor,
) -> Checked
    ensures { (us ls : List ℕ) (s : ℕ) → cause_of result ≡ split_input_cause
        (lent edges.now face.now rebuilt.now divisor.now us ls vertices s) }
{
    let v = checks::count(4096, vertices);
    let e = checks::tables::edges(vertices, edges);
    let w = split_wires_cause(edges.count, face, rebuilt);
    let s = divisor.stops_cause(vertices);
    checks::lower(v, checks::lower(e, checks::lower(w, s)))
}

// Every cause that is found before the walk. For any surface number. The arguments are those of the call, in its order: a struct of them would be made
// in one place, for two functions, and be no plainer.
pub fn split_cause(
    vertices: usize,
    edges: &Table<Edge>,
    face: &Wires,
    rebuilt: &Wires,
    divisor: &Divisor,
    uses: &[u32],
    lengths: &[u32],
) -> Checked
    ensures { (s : ℕ) → cause_of result ≡ split_cause
        (lent edges.now face.now rebuilt.now divisor.now uses.now lengths.now vertices s) }
{
    split_input_cause(vertices, edges, face, rebuilt, divisor)?;
    let pairs = divisor.count / 2;
    let n = rebuilt.total_uses() + pairs * 2;
    room_cause(edges, uses, lengths, n, edges.count + pairs)?;
    seams::odd_cause(divisor.count)?;
    divisor.repeat_cause(vertices)
}
