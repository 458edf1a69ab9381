// The two splits of the healing: with the seam between the rims, and along the vertices of the search. What the call answers is written, with
// the new edges and the wires, and the shell comes back.

ghost use Rattle.std.specs.Prelude.{◌≡◌, IfOk};
ghost use Rattle.pipe.specs.pipe_seam.Steps.{SplitAlong};

use compress::Refusal;
use correction::nearest::Ends;
use pipe_shell::{Shell, Stop, Wires, writing};
use printing::Onward;
use rows::lent;
use rows::tables::TableMut;
use split::seams::Divisor;

// The uv points of the two vertices, where the rims are cut by k: the second's is the copy of it that is nearest to the first's.
fn seam_points(d: Ends, k: u32) -> Result<[f64; 4], Refusal> {
    let p = pipe_shell::uv_of(d.v0, k);
    let q = pipe_shell::uv_of(d.v1, k);
    let near = periodic::nearest_copy(p, q, Some(pipe_shell::TURN), None)?;
    Ok([p.u, p.v, near.u, near.v])
}

// Splits the face along the seam between two vertices, with so many of its wires, from the first on, to be rebuilt.
// The table to write is put together here: after a loan by `table_mut` nothing is known of what the shell's table holds, and `outcome` fails.
// The words for what a loan leaves are for a reference or a pair of them, and not for a struct.
fn split_along(
    rt: &Onward<impl Print>,
    s: &Shell,
    d: Ends,
    rebuilt: usize,
    k: u32,
) -> Result<Shell, Stop>
    ensures same { IfOk result (λ left. left.vertices ≡ s.now.vertices) }
    ensures outcome { IfOk result (λ left. SplitAlong s.now d rebuilt left) }
{
    let points = seam_points(d, k)?;
    let none = Wires {
        uses: [0; 8],
        lengths: [0; 8],
        count: 0,
    };
    let mut left = Shell { wires: none, ..*s };
    let face = s.wires.lent();
    let made = split::split_boundaries_by_divisor(
        s.vertices.count,
        &mut TableMut::new(
            &mut left.edges.numbers,
            &mut left.edges.floats,
            s.edges.count,
        ),
        &face,
        &lent::Wires {
            count: rebuilt,
            ..face
        },
        &Divisor {
            vertices: &[d.v0, d.v1],
            points: &points,
            count: 2,
        },
        &mut left.wires.uses,
        &mut left.wires.lengths,
        0,
    )?;
    left.edges.count = made.edges;
    left.wires.count = made.wires;
    println!(rt; " a seam, and the wires along it")?;
    writing::write_shell(rt, &left, s.edges.count)?;
    Ok(left)
}

// Splits with the seam between the rims. Both rims are open, so that no wire is to be rebuilt.
pub fn split_seam(rt: &Onward<impl Print>, s: &Shell, d: Ends, k: u32) -> Result<Shell, Stop>
    ensures same { IfOk result (λ left. left.vertices ≡ s.now.vertices) }
    ensures outcome { IfOk result (λ left. SplitAlong s.now d 0 left) }
{
    print!(rt; "4. split with the seam:")?;
    split_along(rt, s, d, 0, k)
}

// Splits along the vertices that the search has found. All wires are to be rebuilt.
pub fn split_again(rt: &Onward<impl Print>, s: &Shell, d: Ends, k: u32) -> Result<Shell, Stop>
    ensures same { IfOk result (λ left. left.vertices ≡ s.now.vertices) }
    ensures outcome { IfOk result (λ left. SplitAlong s.now d s.now.wires.count left) }
{
    print!(rt; "7. second split:")?;
    split_along(rt, s, d, s.wires.count, k)
}
