// Replays one stored call of connect_open_boundaries.

ghost use Rattle.stored.specs.Compared.{Compares, Keeps};

use records::{Counts, Pair, Shell};
use rows::lent::Stretch;
use stored::stored_cells::Cell;
use stored::stored_records::answers::Answer;
use stored::stored_records::tables as records;
use stored::{Damaged, Reader};

// How many uses the two open wires have, how many new wires there are, and the two vertices.
#[derive(Clone, Copy)]
struct Ends {
    first: usize,
    second: usize,
    wires: usize,
    v0: u32,
    v1: u32,
}

impl Ends {
    fn read(list: &mut Reader<'_>) -> Result<Ends, Damaged>
        ensures keeps { Keeps list.old list.new }
    {
        let first = usize::next(list)?;
        let second = usize::next(list)?;
        let wires = usize::next(list)?;
        let v0 = u32::next(list)?;
        let v1 = u32::next(list)?;
        Ok(Ends {
            first,
            second,
            wires,
            v0,
            v1,
        })
    }
}

// Makes the call, which writes to the wires.
fn joined(c: Counts, a: Ends, s: &mut Shell, o: &Pair) -> Answer<usize, 1> {
    let first = Stretch {
        uses: o.first.cells(),
        count: a.first,
    };
    let second = Stretch {
        uses: o.second.cells(),
        count: a.second,
    };
    let made = join::connect_open_boundaries(
        c.vertices,
        &s.edges.lent(c.edges),
        &first,
        &second,
        &mut s.wires.lent_mut(a.wires),
        a.v0,
        a.v1,
    );
    Answer::from(made.map(|found| found.map(|wire| [wire])))
}

// Replays connect_open_boundaries.
pub fn replay_join(list: &mut Reader<'_>, shell: &mut Shell, open: &mut Pair) -> Result<(), Damaged>
    ensures compares { Compares list.old list.new }
{
    let counts = Counts::read(list)?;
    let ends = Ends::read(list)?;
    shell.edges.read(list)?;
    open.read(list)?;
    shell.wires.read(list)?;
    joined(counts, ends, shell, open).compare(list)?;
    shell.wires.compare(list)
}
