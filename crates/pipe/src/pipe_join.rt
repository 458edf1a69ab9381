// The join of the two rims with the seam. What the call answers is written, with the wires, and the shell comes back.

ghost use Rattle.std.specs.Prelude.{◌≡◌, IfOk};
ghost use Rattle.pipe.specs.pipe_join.Steps.{join_of, Joined};

use correction::nearest::Ends;
use pipe_shell::{Shell, Stop, Wires, writing};
use printing::Onward;
use rows::lent::WiresMut;

// Joins the two rims with the seam's wire, which the shell has now.
// The wires to write are put together here: after a loan by a method nothing is known of what the shell holds, and `joined` fails.
// The words for what a loan leaves are for a reference or a pair of them, and not for a struct.
pub fn join_rims(rt: &Onward<impl Print>, rims: &Wires, s: &Shell, d: Ends) -> Result<Shell, Stop>
    ensures same { IfOk result (λ left. (left.vertices ≡ s.now.vertices) × (left.edges ≡ s.now.edges)) }
    ensures joined { IfOk result (λ left. Joined (join_of rims.now s.now d) left) }
{
    print!(rt; "5. join:")?;
    let (first, second) = rims.rims();
    let mut left = *s;
    let joined = join::connect_open_boundaries(
        s.vertices.count,
        &s.edges.table(),
        &first,
        &second,
        &mut WiresMut {
            uses: &mut left.wires.uses,
            lengths: &mut left.wires.lengths,
            count: s.wires.count,
        },
        d.v0,
        d.v1,
    )?;
    joined.ok_or(Stop::NoResult)?;
    println!(rt; " the rims and the seam are one wire")?;
    writing::write_wires(rt, &left.wires)?;
    Ok(left)
}
