// The first step of the healing, the closed-edge pass: the rims are cut. What the call answers is written, with the shell as the step leaves
// it, which comes back.

ghost use Rattle.std.specs.Prelude.{◌≡◌, IfOk};
ghost use Rattle.pipe.specs.pipe_rims.Steps.{pass_of, Passed};

use compress::FLOATS_PER_VERTEX;
use pipe_shell::{Shell, Stop, Vertices, writing};
use printing::Onward;
use rows::lent::WiresMut;
use rows::tables::TableMut;
use std::io;

// The point at which a host evaluates the new vertex of the lower rim, and the u at which it projects it.
fn write_cut(rt: &Onward<impl Print>, vertices: &Vertices, k: u32) -> io::Result<()> {
    let x = vertices.floats[2 * FLOATS_PER_VERTEX];
    let y = vertices.floats[2 * FLOATS_PER_VERTEX + 1];
    let u = pipe_shell::uv_of(2, k).u;
    println!(rt; "   vertex 2 at x {x:.3}, y {y:.3} and u {u:.3}")
}

// Cuts the rims, k eighths of the way round; a host evaluates the points of the new vertices.
// The edges and wires to write are put together here: after a loan by a method nothing is known of what the shell holds, and `passed` fails.
// The words for what a loan leaves are for a reference or a pair of them, and not for a struct.
pub fn cut_rims(rt: &Onward<impl Print>, s: &Shell, k: u32) -> Result<Shell, Stop>
    ensures same { IfOk result (λ left. left.wires.count ≡ s.now.wires.count) }
    ensures passed { IfOk result (λ left. Passed (pass_of k s.now) left) }
{
    print!(rt; "1. closed-edge pass:")?;
    let mut left = *s;
    let counts = split_closed_edges::split_closed_edges(
        &mut left.vertices.table_mut(),
        &mut TableMut::new(
            &mut left.edges.numbers,
            &mut left.edges.floats,
            s.edges.count,
        ),
        &mut WiresMut {
            uses: &mut left.wires.uses,
            lengths: &mut left.wires.lengths,
            count: s.wires.count,
        },
        k,
    )?;
    left.vertices = pipe_shell::given(counts.vertices, k);
    left.edges.count = counts.edges;
    println!(rt; " the rims are cut at {k}/8 of the turn, the new vertices evaluated")?;
    write_cut(rt, &left.vertices, k)?;
    writing::write_shell(rt, &left, 0)?;
    Ok(left)
}
