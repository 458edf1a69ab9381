// Replays one stored call of split_closed_edges.

ghost use Rattle.stored.specs.Compared.{Compares, Keeps};

use records::{Counts, Lengths, Shell};
use stored::stored_cells::Cell;
use stored::stored_records::answers::Answer;
use stored::stored_records::tables as records;
use stored::{Damaged, Reader};

// Reads the lengths of all six buffers, and then the cells of all.
fn read_shell(list: &mut Reader<'_>, s: &mut Shell) -> Result<(), Damaged>
    ensures keeps { Keeps list.old list.new }
{
    let vertices = Lengths::read(list)?;
    let edges = Lengths::read(list)?;
    let wires = Lengths::read(list)?;
    s.vertices.fill(list, vertices)?;
    s.edges.fill(list, edges)?;
    s.wires.fill(list, wires)
}

// Makes the call split_closed_edges, which writes to the shell.
fn pass(c: Counts, wires: usize, k: u32, s: &mut Shell) -> Answer<usize, 3> {
    Answer::from(split_closed_edges::split_closed_edges(
        &mut s.vertices.lent_mut(c.vertices),
        &mut s.edges.lent_mut(c.edges),
        &mut s.wires.lent_mut(wires),
        k,
    ))
}

// Replays split_closed_edges.
pub fn replay_pass(list: &mut Reader<'_>, shell: &mut Shell) -> Result<(), Damaged>
    ensures compares { Compares list.old list.new }
{
    let counts = Counts::read(list)?;
    let wires = usize::next(list)?;
    let k = u32::next(list)?;
    read_shell(list, shell)?;
    pass(counts, wires, k, shell).compare(list)?;
    shell.compare(list)
}
