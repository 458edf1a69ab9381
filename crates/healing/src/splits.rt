// The call for hosts that splits boundaries along a divisor.
ghost use Rattle.split.specs.declared.Boundaries.{Boundaries};
ghost use Rattle.split.specs.split_causes.Causes.{Buffers, LentSplit};
ghost use Rattle.split.specs.Contract.{split_outcome};
ghost use Rattle.healing.specs.Host.{HostBoundaries, HostKeeps};

use rows::lent::Wires;
use rows::tables::TableMut;
use split::seams::Divisor;

// The wires to be rebuilt are rebuilt along the divisor, a list of vertices with their uv points, two floats each: the new edges are appended to the
// edge table, and the answered wires go to `uses` and `lengths`. 0: done, and the three places hold the counts of wires, of their uses and of
// edges. Else the number of the refusal, and nothing lent is changed.
#[unsafe(no_mangle)]
pub extern "C" fn kaugrenna_split_boundaries_by_divisor(
    edge_numbers: &mut [u32],
    edge_floats: &mut [f64],
    face_uses: &[u32],
    face_lengths: &[u32],
    rebuilt_uses: &[u32],
    rebuilt_lengths: &[u32],
    divisor: &[u32],
    points: &[f64],
    uses: &mut [u32],
    lengths: &mut [u32],
    vertices: usize,
    edges: usize,
    face_wires: usize,
    rebuilt_wires: usize,
    divisor_count: usize,
    surface: u32,
    wires_out: &mut usize,
    uses_out: &mut usize,
    edges_out: &mut usize,
) -> i32
    ensures { let before : Boundaries = record { wires = wires_out.old; uses = uses_out.old; edges = edges_out.old } in
        let after : Boundaries = record { wires = wires_out.new; uses = uses_out.new; edges = edges_out.new } in
        let lent : LentSplit = record {
          buffers = record { en = edge_numbers.old; ef = edge_floats.old; us = uses.old; ls = lengths.old };
          face_uses = face_uses.now;
          face_lengths = face_lengths.now;
          rebuilt_uses = rebuilt_uses.now;
          rebuilt_lengths = rebuilt_lengths.now;
          divisor = divisor.now;
          points = points.now;
          vertices = vertices;
          edges = edges;
          face_wires = face_wires;
          rebuilt_wires = rebuilt_wires;
          stops = divisor_count;
          surface = surface;
        } in
        let left : Buffers = record { en = edge_numbers.new; ef = edge_floats.new; us = uses.new; ls = lengths.new } in
        record {
          outcome : HostBoundaries (split_outcome lent) before after left result;
          keeps_uses : HostKeeps lent before after left result;
        } }
{
    let mut table = TableMut::new(edge_numbers, edge_floats, edges);
    let face = Wires {
        uses: face_uses,
        lengths: face_lengths,
        count: face_wires,
    };
    let rebuilt = Wires {
        uses: rebuilt_uses,
        lengths: rebuilt_lengths,
        count: rebuilt_wires,
    };
    let divisor = Divisor {
        vertices: divisor,
        points,
        count: divisor_count,
    };
    let answer = split::split_boundaries_by_divisor(
        vertices, &mut table, &face, &rebuilt, &divisor, uses, lengths, surface,
    );
    codes::tell_boundaries(answer, wires_out, uses_out, edges_out)
}
