// Replays one stored call of sort_wires.
ghost use Rattle.stored.specs.Compared.{Compares};

use stored::stored_cells::{Buffer, Cell};
use stored::stored_records::answers::Answer;
use stored::stored_records::tables::Pair;
use stored::{Damaged, Reader};
use wire_kinds::LentEnds;

// Makes the call, which writes to the two buffers of wires.
fn sort(wires: usize, ends: &Buffer<f64>, w: &mut Pair) -> Answer<usize, 1> {
    let sorted = wire_kinds::sort_wires(
        &LentEnds {
            floats: ends.cells(),
            count: wires,
        },
        w.first.cells_mut(),
        w.second.cells_mut(),
    );
    Answer::from(sorted.map(|found| found.map(|open| [open])))
}

// Replays sort_wires.
pub fn replay_sort(
    list: &mut Reader<'_>,
    ends: &mut Buffer<f64>,
    sorted: &mut Pair,
) -> Result<(), Damaged>
    ensures compares { Compares list.old list.new }
{
    let wires = usize::next(list)?;
    ends.read(list)?;
    sorted.read(list)?;
    sort(wires, ends, sorted).compare(list)?;
    sorted.compare(list)
}
