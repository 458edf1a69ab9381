// The call for hosts that joins two open wires.
ghost use Rattle.join.specs.Contract.{LentJoin, join_outcome};
ghost use Rattle.healing.specs.Host.{HostJoin};

use rows::lent::{Stretch, WiresMut};
use rows::tables::Table;

// The two open wires and the first new wire that holds v0 become one wire, which replaces that new wire, in place. 0: done, and the place holds
// how many uses the new wires have now. -1: something is not found. Else the number of the refusal. After -1 and a refusal nothing lent is changed.
#[unsafe(no_mangle)]
pub extern "C" fn kaugrenna_connect_open_boundaries(
    edge_numbers: &[u32],
    edge_floats: &[f64],
    first: &[u32],
    second: &[u32],
    uses: &mut [u32],
    lengths: &mut [u32],
    vertices: usize,
    edges: usize,
    first_count: usize,
    second_count: usize,
    wires: usize,
    v0: u32,
    v1: u32,
    uses_out: &mut usize,
) -> i32
    ensures { let before = uses_out.old in
        let after = uses_out.new in
        let lent : LentJoin = record {
          en = edge_numbers.now;
          ef = edge_floats.now;
          first = first.now;
          second = second.now;
          us = uses.old;
          ls = lengths.old;
          vertices = vertices;
          edges = edges;
          first_count = first_count;
          second_count = second_count;
          wires = wires;
          v0 = v0;
          v1 = v1;
        } in
        HostJoin (join_outcome lent) before after uses.new lengths.new result }
{
    let es = Table::new(edge_numbers, edge_floats, edges);
    let first = Stretch {
        uses: first,
        count: first_count,
    };
    let second = Stretch {
        uses: second,
        count: second_count,
    };
    let mut ws = WiresMut {
        uses,
        lengths,
        count: wires,
    };
    let answer = join::connect_open_boundaries(vertices, &es, &first, &second, &mut ws, v0, v1);
    codes::tell_if(answer, uses_out)
}
