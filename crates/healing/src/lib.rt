// The calls for hosts in C and Rust: numbers and slices, and an i32 for the answer. Here the closed-edge pass; the modules have the others.
// In C each slice, each count, each float of a point and each place for a result is a parameter of its own: here they become tables, wires and points.
#![tactic(auto)]

mod cut;
mod joins;
mod kinds;
mod parameters;
mod periods;
mod search;
mod splits;

ghost use Rattle.compress.specs.declared.Counts.{Counts};
ghost use Rattle.compress.specs.Shell.{Slices, Lent};
ghost use Rattle.split_closed_edges.specs.Contract.{outcome_of};
ghost use Rattle.healing.specs.Host.{HostShell, HostVerticesPass};

use rows::lent::WiresMut;
use rows::tables::TableMut;

// Every closed edge is cut, k eighths of the way along its curve, and every wire mended, in place. 0: done, and the three places hold the new counts of
// vertices, edges and uses. Else the number of the refusal, and nothing lent is changed.
#[unsafe(no_mangle)]
pub extern "C" fn kaugrenna_split_closed_edges(
    vertex_numbers: &mut [u32],
    vertex_floats: &mut [f64],
    edge_numbers: &mut [u32],
    edge_floats: &mut [f64],
    uses: &mut [u32],
    lengths: &mut [u32],
    vertices: usize,
    edges: usize,
    wires: usize,
    k: u32,
    vertices_out: &mut usize,
    edges_out: &mut usize,
    uses_out: &mut usize,
) -> i32
    ensures { let before : Counts = record { vertices = vertices_out.old; edges = edges_out.old; uses = uses_out.old } in
        let after : Counts = record { vertices = vertices_out.new; edges = edges_out.new; uses = uses_out.new } in
        let lent : Lent = record {
          slices = record {
            vn = vertex_numbers.old;
            vf = vertex_floats.old;
            en = edge_numbers.old;
            ef = edge_floats.old;
            us = uses.old;
            ls = lengths.old;
          };
          vertices = vertices;
          edges = edges;
          wires = wires;
        } in
        let left : Slices = record {
          vn = vertex_numbers.new;
          vf = vertex_floats.new;
          en = edge_numbers.new;
          ef = edge_floats.new;
          us = uses.new;
          ls = lengths.new;
        } in
        record {
          outcome : HostShell (outcome_of k lent) before after left result;
          parameters : HostVerticesPass after left result;
        } }
{
    let mut vs = TableMut::new(vertex_numbers, vertex_floats, vertices);
    let mut es = TableMut::new(edge_numbers, edge_floats, edges);
    let mut ws = WiresMut {
        uses,
        lengths,
        count: wires,
    };
    let answer = split_closed_edges::split_closed_edges(&mut vs, &mut es, &mut ws, k);
    codes::tell_counts(answer, vertices_out, edges_out, uses_out)
}
