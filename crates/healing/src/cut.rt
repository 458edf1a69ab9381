// The calls for hosts that cut one edge: at one point, and at several.
ghost use Rattle.compress.specs.declared.Counts.{Counts};
ghost use Rattle.compress.specs.Shell.{Slices, Lent};
ghost use Rattle.one_cut.specs.Contract.{cut_outcome};
ghost use Rattle.several_cuts.specs.Contract.{several_outcome};
ghost use Rattle.healing.specs.Host.{HostShell};

use edge_cuts::cuts::EdgeCuts;
use rows::lent::WiresMut;
use rows::tables::TableMut;

// Edge number `edge` is cut by the cuts in `cuts`, four floats each: parameter, x, y, z. No cut changes nothing, one cuts the edge and mends
// every wire, in place, and two or more are refused (14). 0: done, and the three places hold the counts of vertices, edges and uses. Else the
// number of the refusal, and nothing lent is changed.
#[unsafe(no_mangle)]
pub extern "C" fn kaugrenna_cut_edge_by_intersections(
    vertex_numbers: &mut [u32],
    vertex_floats: &mut [f64],
    edge_numbers: &mut [u32],
    edge_floats: &mut [f64],
    uses: &mut [u32],
    lengths: &mut [u32],
    cuts: &[f64],
    vertices: usize,
    edges: usize,
    wires: usize,
    edge: u32,
    cut_count: usize,
    vertices_out: &mut usize,
    edges_out: &mut usize,
    uses_out: &mut usize,
) -> i32
    ensures { let before : Counts = record { vertices = vertices_out.old; edges = edges_out.old; uses = uses_out.old } in
        let after : Counts = record { vertices = vertices_out.new; edges = edges_out.new; uses = uses_out.new } in
        let lent : Lent = record {
          slices = record {
            vn = vertex_numbers.old;
            vf = vertex_floats.old;
            en = edge_numbers.old;
            ef = edge_floats.old;
            us = uses.old;
            ls = lengths.old;
          };
          vertices = vertices;
          edges = edges;
          wires = wires;
        } in
        let left : Slices = record {
          vn = vertex_numbers.new;
          vf = vertex_floats.new;
          en = edge_numbers.new;
          ef = edge_floats.new;
          us = uses.new;
          ls = lengths.new;
        } in
        HostShell (cut_outcome lent edge cuts.now cut_count) before after left result }
{
    let mut vs = TableMut::new(vertex_numbers, vertex_floats, vertices);
    let mut es = TableMut::new(edge_numbers, edge_floats, edges);
    let mut ws = WiresMut {
        uses,
        lengths,
        count: wires,
    };
    let cuts = EdgeCuts {
        edge,
        floats: cuts,
        count: cut_count,
    };
    let answer = one_cut::cut_edge_by_intersections(&mut vs, &mut es, &mut ws, &cuts);
    codes::tell_counts(answer, vertices_out, edges_out, uses_out)
}

// Edge number `edge` is cut by the cuts in `cuts`, at most 64 in strictly rising parameter, four floats each: parameter, x, y, z. It becomes a chain
// of pieces, of which the first keeps its number, the others and the new vertices are numbered along the curve, and every wire is mended, in place.
// No cut changes nothing. More than 64 cuts are refused (16), and parameters that do not rise strictly (17), after 1 to 5 and before 6. 0: done, and
// the three places hold the counts of vertices, edges and uses. Else the number of the refusal, and nothing lent is changed.
#[unsafe(no_mangle)]
pub extern "C" fn kaugrenna_cut_edge_at_points(
    vertex_numbers: &mut [u32],
    vertex_floats: &mut [f64],
    edge_numbers: &mut [u32],
    edge_floats: &mut [f64],
    uses: &mut [u32],
    lengths: &mut [u32],
    cuts: &[f64],
    vertices: usize,
    edges: usize,
    wires: usize,
    edge: u32,
    cut_count: usize,
    vertices_out: &mut usize,
    edges_out: &mut usize,
    uses_out: &mut usize,
) -> i32
    ensures { let before : Counts = record { vertices = vertices_out.old; edges = edges_out.old; uses = uses_out.old } in
        let after : Counts = record { vertices = vertices_out.new; edges = edges_out.new; uses = uses_out.new } in
        let lent : Lent = record {
          slices = record {
            vn = vertex_numbers.old;
            vf = vertex_floats.old;
            en = edge_numbers.old;
            ef = edge_floats.old;
            us = uses.old;
            ls = lengths.old;
          };
          vertices = vertices;
          edges = edges;
          wires = wires;
        } in
        let left : Slices = record {
          vn = vertex_numbers.new;
          vf = vertex_floats.new;
          en = edge_numbers.new;
          ef = edge_floats.new;
          us = uses.new;
          ls = lengths.new;
        } in
        HostShell (several_outcome lent edge cuts.now cut_count) before after left result }
{
    let mut vs = TableMut::new(vertex_numbers, vertex_floats, vertices);
    let mut es = TableMut::new(edge_numbers, edge_floats, edges);
    let mut ws = WiresMut {
        uses,
        lengths,
        count: wires,
    };
    let cuts = EdgeCuts {
        edge,
        floats: cuts,
        count: cut_count,
    };
    let answer = several_cuts::cut_edge_at_points(&mut vs, &mut es, &mut ws, &cuts);
    codes::tell_counts(answer, vertices_out, edges_out, uses_out)
}
