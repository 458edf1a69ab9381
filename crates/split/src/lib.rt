// Document 01's "Split" (`split_boundaries_by_divisor`, from `duplicated_edges` on): wires are rebuilt along a divisor.
#![tactic(auto)]

pub mod seams;
mod split_causes;

ghost use Rattle.std.specs.Prelude.{◌≡◌, ◌+◌, ◌*◌, ◌/◌, length};
ghost use Rattle.compress.specs.Layout.{rows};
ghost use Rattle.split.specs.seams.Seams.{stop_at, seams_of};
ghost use Rattle.walk.specs.marks.Walking.{Walkable, lent_walk};
ghost use Rattle.rows.specs.Places.{SameTable};
ghost use Rattle.split.specs.split_causes.Lent.{lent_mut};
ghost use Rattle.split.specs.Contract.{split_outcome};
ghost use Rattle.split.specs.Left.{left, buffers};
ghost use Rattle.split.specs.Demand.{KeepsUses};
ghost use Rattle.split.specs.Steps.{Roomy, after_lent};

use crate::seams::Divisor;
use compress::{Edge, Refusal};
use rows::lent::Wires;
use rows::tables::TableMut;
use walk::lists::AllEdges;

// What a split leaves: how many wires, uses and edges there are now.
#[derive(Clone, Copy)]
pub struct Boundaries {
    pub wires: usize,
    pub uses: usize,
    pub edges: usize,
}

// The split of an input that has no cause before the walk. Nothing lent is written before the walk has succeeded.
fn split_checked(
    edges: &mut TableMut<Edge>,
    face: &[u32],
    rebuilt: &[u32],
    divisor: &Divisor,
    uses: &mut [u32],
    lengths: &mut [u32],
    surface: u32,
) -> Result<Boundaries, Refusal>
    requires walkable { let pairs = divisor.now.count / 2 in
        Walkable edges.old.numbers.now edges.old.count face.now rebuilt.now divisor.now.vertices.now pairs }
    requires roomy { let pairs = divisor.now.count / 2 in
        Roomy (buffers edges.old uses.old lengths.old) edges.old.count (length rebuilt.now + pairs * 2) pairs divisor.now.points.now }
    ensures outcome { let pairs = divisor.now.count / 2 in
        let seams = seams_of surface (rows (stop_at divisor.now.vertices.now divisor.now.points.now) 0 (pairs * 2)) in
        let walked = lent_walk edges.old.numbers.now edges.old.count face.now rebuilt.now divisor.now.vertices.now pairs in
        left result edges.new uses.new lengths.new ≡ after_lent (buffers edges.old uses.old lengths.old) edges.old.count seams walked }
    ensures same { SameTable edges.old edges.new }
{
    let pairs = divisor.count / 2;
    let count = edges.count;
    let all = AllEdges {
        lent: edges.view(),
        divisor: divisor.vertices,
    };
    let walked = walk::marks::walk_marked(&all, face, rebuilt, uses, lengths)?;
    seams::create_new_edges(edges, divisor, surface);
    Ok(Boundaries {
        wires: walked.wires,
        uses: walked.uses,
        edges: count + pairs,
    })
}

// `split_boundaries_by_divisor`, from `duplicated_edges` on: the new edges are appended to the edge table, and the wires that the walk
// builds go to `uses` and `lengths`. A refusal changes nothing lent. These two are slices and no struct, here and in the walk: how many wires
// they hold is not known before the call, and a struct of two slices would need a clause in five functions that it keeps them.
pub fn split_boundaries_by_divisor(
    vertices: usize,
    edges: &mut TableMut<Edge>,
    face: &Wires,
    rebuilt: &Wires,
    divisor: &Divisor,
    uses: &mut [u32],
    lengths: &mut [u32],
    surface: u32,
) -> Result<Boundaries, Refusal>
    ensures outcome { let lent = lent_mut edges.old face.now rebuilt.now divisor.now uses.old lengths.old vertices surface in
        left result edges.new uses.new lengths.new ≡ split_outcome lent }
    ensures keeps_uses { let lent = lent_mut edges.old face.now rebuilt.now divisor.now uses.old lengths.old vertices surface in
        KeepsUses lent (left result edges.new uses.new lengths.new) }
    ensures same { SameTable edges.old edges.new }
{
    let lent = edges.view();
    split_causes::split_cause(vertices, &lent, face, rebuilt, divisor, uses, lengths)?;
    let n = face.total_uses();
    let m = rebuilt.total_uses();
    let stops = Divisor {
        vertices: &divisor.vertices[..divisor.count],
        ..*divisor
    };
    split_checked(
        edges,
        &face.uses[..n],
        &rebuilt.uses[..m],
        &stops,
        uses,
        lengths,
        surface,
    )
}
