// The calls for hosts on wires and vertices: nearest ends, and the non-simple search.
ghost use Rattle.compress.specs.Shell.{Lent};
ghost use Rattle.correction.specs.declared.nearest.Ends.{Ends};
ghost use Rattle.correction.specs.Correction.{LentStretches, nearest_correction};
ghost use Rattle.non_simple.specs.Search.{find_non_simple};
ghost use Rattle.codes.specs.Told.{Told};

use rows::lent::{Stretch, Wires};
use rows::tables::{Table, Tables};

// From v0 the nearest front of the second stretch, from there the nearest front of the first. 0: done, and the two places hold a vertex of the
// first stretch and one of the second. -1: a stretch is empty. Else the number of the refusal. After -1 and a refusal nothing lent is changed.
#[unsafe(no_mangle)]
pub extern "C" fn kaugrenna_nearest_correction(
    vertex_numbers: &[u32],
    vertex_floats: &[f64],
    edge_numbers: &[u32],
    edge_floats: &[f64],
    first: &[u32],
    second: &[u32],
    vertices: usize,
    edges: usize,
    first_count: usize,
    second_count: usize,
    v0: u32,
    v0_out: &mut u32,
    v1_out: &mut u32,
) -> i32
    ensures { let before : Ends = record { v0 = v0_out.old; v1 = v1_out.old } in
        let after : Ends = record { v0 = v0_out.new; v1 = v1_out.new } in
        let lent : LentStretches = record {
          vn = vertex_numbers.now;
          vf = vertex_floats.now;
          en = edge_numbers.now;
          ef = edge_floats.now;
          first = first.now;
          second = second.now;
          vertices = vertices;
          edges = edges;
          first_count = first_count;
          second_count = second_count;
          v0 = v0;
        } in
        Told (nearest_correction lent) before after result }
{
    let tables = Tables {
        vertices: Table::new(vertex_numbers, vertex_floats, vertices),
        edges: Table::new(edge_numbers, edge_floats, edges),
    };
    let first = Stretch {
        uses: first,
        count: first_count,
    };
    let second = Stretch {
        uses: second,
        count: second_count,
    };
    let answer = correction::nearest_correction(&tables, &first, &second, v0);
    codes::tell_ends(answer, v0_out, v1_out)
}

// Of the wires in order the first that uses an edge twice and can be divided. 0: done, and the two places hold the vertices between which it
// is. -1: no wire can. Else the number of the refusal. After -1 and a refusal nothing lent is changed.
#[unsafe(no_mangle)]
pub extern "C" fn kaugrenna_find_non_simple_wire_divisor(
    vertex_numbers: &[u32],
    vertex_floats: &[f64],
    edge_numbers: &[u32],
    edge_floats: &[f64],
    uses: &[u32],
    lengths: &[u32],
    vertices: usize,
    edges: usize,
    wires: usize,
    v0_out: &mut u32,
    v1_out: &mut u32,
) -> i32
    ensures { let before : Ends = record { v0 = v0_out.old; v1 = v1_out.old } in
        let after : Ends = record { v0 = v0_out.new; v1 = v1_out.new } in
        let lent : Lent = record {
          slices = record {
            vn = vertex_numbers.now;
            vf = vertex_floats.now;
            en = edge_numbers.now;
            ef = edge_floats.now;
            us = uses.now;
            ls = lengths.now;
          };
          vertices = vertices;
          edges = edges;
          wires = wires;
        } in
        Told (find_non_simple lent) before after result }
{
    let tables = Tables {
        vertices: Table::new(vertex_numbers, vertex_floats, vertices),
        edges: Table::new(edge_numbers, edge_floats, edges),
    };
    let wires = Wires {
        uses,
        lengths,
        count: wires,
    };
    let answer = non_simple::find_non_simple_wire_divisor(&tables, &wires);
    codes::tell_ends(answer, v0_out, v1_out)
}
