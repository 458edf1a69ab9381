// The steps of the healing that find where the face is to be divided, each a call of the port: the sorting of wires, the nearest ends of the
// rims, and the search for a wire that uses an edge twice. What a call answers is written.

ghost use Rattle.std.specs.Prelude.{IfOk, OnOk};
ghost use Rattle.pipe.specs.pipe_ends.Steps.{RimsOpen, ends_said, divisor_said, Answered};

use correction::nearest::Ends;
use pipe_shell::{Shell, Stop};
use printing::Onward;
use rows::tables::Tables;
use std::io;
use wire_kinds::LentEnds;

// Sorts the wires: just the two rims are open.
pub fn sort(rt: &Onward<impl Print>, s: &Shell) -> Result<(), Stop>
    ensures { OnOk result (RimsOpen s.now) }
{
    print!(rt; "2. sorting of wires:")?;
    let ends = LentEnds {
        floats: &pipe_shell::ends_of_wires(),
        count: s.wires.count,
    };
    let mut opens = [0u32; 2];
    let mut closed = [0u32; 2];
    let sorted = wire_kinds::sort_wires(&ends, &mut opens, &mut closed)?;
    let count = sorted.ok_or(Stop::NoResult)?;
    let [first, second] = opens;
    println!(rt; " wires {first} and {second} are open, {count} closed")?;
    if opens == [0, 1] {
        Ok(())
    } else {
        Err(Stop::OtherOpen)
    }
}

// The two vertices that a call answers.
fn write_ends(rt: &Onward<impl Print>, ends: Ends) -> io::Result<()> {
    let v0 = ends.v0;
    let v1 = ends.v1;
    println!(rt; " vertices {v0} and {v1}")
}

// The nearest ends of the two rims, from vertex 0 on, where the turn begins.
pub fn nearest_ends(rt: &Onward<impl Print>, s: &Shell) -> Result<Ends, Stop>
    ensures { IfOk result (λ ends. Answered (ends_said s.now) ends) }
{
    print!(rt; "3. nearest ends:")?;
    let (first, second) = s.wires.rims();
    let tables = Tables {
        vertices: s.vertices.table(),
        edges: s.edges.table(),
    };
    let found = correction::nearest_correction(&tables, &first, &second, 0)?;
    let ends = found.ok_or(Stop::NoResult)?;
    write_ends(rt, ends)?;
    Ok(ends)
}

// The two vertices that divide the wire that uses the seam twice.
pub fn search(rt: &Onward<impl Print>, s: &Shell) -> Result<Ends, Stop>
    ensures { IfOk result (λ ends. Answered (divisor_said s.now) ends) }
{
    print!(rt; "6. non-simple search:")?;
    let tables = Tables {
        vertices: s.vertices.table(),
        edges: s.edges.table(),
    };
    let found = non_simple::find_non_simple_wire_divisor(&tables, &s.wires.lent())?;
    let ends = found.ok_or(Stop::NoResult)?;
    write_ends(rt, ends)?;
    Ok(ends)
}
