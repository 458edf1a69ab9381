// The marks of a split: edges that occur twice in the face's wires, and the new ones. The walk over the uses to be rebuilt
// and those of the new edges.

ghost use Rattle.std.specs.Prelude.{◌≡◌, ℕ, ◌+◌, ◌*◌, ◌/◌, ◌≤◌, ◌<◌, length, get_or};
ghost use Rattle.compress.specs.Wires.{UsesBelow};
ghost use Rattle.std.proofs.lemmas.List.Edits.{sets};
ghost use Rattle.compress.specs.Records.{pick};
ghost use Rattle.walk.specs.lists.Ends.{pairs_in};
ghost use Rattle.walk.specs.Answered.{leaves_walk, walk_outcome};
ghost use Rattle.walk.specs.marks.Marks.{new_uses, occurs, is_new_edge};
ghost use Rattle.walk.specs.marks.Walking.{WalkableIn, walk_all};

use crate::Walked;
use crate::lists::AllEdges;
use compress::Refusal;

// ---- the marks and the uses

// `duplicated_edges`: entry e of `marks` is how often edge e occurs among the uses of the face. The table holds zeros.
fn duplicated_edges(face: &[u32], marks: &mut [u32])
    requires few { length face.now ≤ 1024 }
    requires known { UsesBelow (length marks.old) face.now }
    requires blank { (k : ℕ) → get_or marks.old k 0 ≡ 0 }
    ensures { (k : ℕ) → k < length marks.old → get_or marks.new k 0 ≡ occurs k face.now }
{
    for u in face {
        marks[(*u / 2) as usize] += 1;
    }
}

// The new edges, n of them from number m on, count as occurring twice.
fn mark_new(marks: &mut [u32], m: usize, n: usize)
    requires { m + n ≤ length marks.old }
    ensures { (k : ℕ) → get_or marks.new k 0 ≡ pick (is_new_edge m n k) 2 (get_or marks.old k 0) }
{
    marks[m..m + n].fill(2);
}

// `signup_new_edges`: each new edge from number m on, forward and reversed. Their uses are the numbers from 2 m on.
fn signup_new_edges(out: &mut [u32], m: usize)
    requires { m * 2 + length out.old ≤ 8192 }
    ensures { (n : ℕ) → length out.old ≡ n * 2 → out.new ≡ new_uses m n }
{
    for (i, u) in out.iter_mut().enumerate() {
        *u = (m * 2 + i) as u32;
    }
}

// ---- the walk

// The wires that the uses of the wires to be rebuilt and of the new edges make: they go to `uses`, wire after wire, and their lengths
// to `lengths`. The divisor has a pair of vertices for each new edge. Of at most N edges, the new ones among them.
fn walk_within<const N: usize>(
    edges: &AllEdges,
    face: &[u32],
    rebuilt: &[u32],
    uses: &mut [u32],
    lengths: &mut [u32],
) -> Result<Walked, Refusal>
    requires walkable { WalkableIn edges.now face.now rebuilt.now }
    requires table { (edges.now.lent.count + pairs_in edges.now ≤ N) × (N ≤ 4096) }
    requires uses_room { length rebuilt.now + pairs_in edges.now * 2 ≤ length uses.old }
    requires lengths_room { length rebuilt.now + pairs_in edges.now * 2 ≤ length lengths.old }
    ensures { let answer = walk_all edges.now face.now rebuilt.now in
        leaves_walk result uses.new lengths.new ≡ walk_outcome answer uses.old lengths.old }
{
    let mut marks = [0u32; N];
    let mut to_walk = [0u32; 1024];
    let count = edges.lent.count;
    let pairs = edges.divisor.len() / 2;
    let n = rebuilt.len();
    let m = n + pairs * 2;
    duplicated_edges(face, &mut marks);
    mark_new(&mut marks, count, pairs);
    to_walk[..n].copy_from_slice(rebuilt);
    signup_new_edges(&mut to_walk[n..m], count);
    crate::walk_wires(edges, &marks, &to_walk[..m], uses, lengths)
}

// The same, for any number of edges. Few have a small table, since to zero it takes time.
pub fn walk_marked(
    edges: &AllEdges,
    face: &[u32],
    rebuilt: &[u32],
    uses: &mut [u32],
    lengths: &mut [u32],
) -> Result<Walked, Refusal>
    requires walkable { WalkableIn edges.now face.now rebuilt.now }
    requires uses_room { length rebuilt.now + pairs_in edges.now * 2 ≤ length uses.old }
    requires lengths_room { length rebuilt.now + pairs_in edges.now * 2 ≤ length lengths.old }
    ensures { let answer = walk_all edges.now face.now rebuilt.now in
        leaves_walk result uses.new lengths.new ≡ walk_outcome answer uses.old lengths.old }
{
    if edges.lent.count + edges.divisor.len() / 2 <= 64 {
        walk_within::<64>(edges, face, rebuilt, uses, lengths)
    } else {
        walk_within::<4096>(edges, face, rebuilt, uses, lengths)
    }
}
