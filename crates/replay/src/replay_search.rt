// Replays one stored call of those that answer with two vertices: nearest_correction and find_non_simple_wire_divisor.

ghost use Rattle.stored.specs.Compared.{Compares, Keeps};

use compress::Refusal;
use correction::nearest::Ends;
use records::{Counts, Shell};
use rows::lent::Stretch;
use rows::tables::Tables;
use stored::stored_cells::Cell;
use stored::stored_records::answers::Answer;
use stored::stored_records::tables as records;
use stored::{Damaged, Reader};

// How many uses the two stretches of nearest_correction have, and from which vertex it starts.
#[derive(Clone, Copy)]
struct Start {
    first: usize,
    second: usize,
    v0: u32,
}

fn answer_of(found: Result<Option<Ends>, Refusal>) -> Answer<u32, 2> {
    Answer::from(found.map(|found| found.map(|ends| [ends.v0, ends.v1])))
}

// The tables of a shell, with the counts that a call tells of them.
fn tables(c: Counts, s: &Shell) -> Tables<'_> {
    Tables {
        vertices: s.vertices.lent(c.vertices),
        edges: s.edges.lent(c.edges),
    }
}

// ---- find_non_simple_wire_divisor

// Makes the call.
fn divisor(c: Counts, wires: usize, s: &Shell) -> Answer<u32, 2> {
    answer_of(non_simple::find_non_simple_wire_divisor(&tables(c, s), &s.wires.lent(wires)))
}

// Replays find_non_simple_wire_divisor.
pub fn replay_divisor(list: &mut Reader<'_>, shell: &mut Shell) -> Result<(), Damaged>
    ensures compares { Compares list.old list.new }
{
    let counts = Counts::read(list)?;
    let wires = usize::next(list)?;
    shell.read(list)?;
    divisor(counts, wires, shell).compare(list)
}

// ---- nearest_correction

impl Start {
    fn read(list: &mut Reader<'_>) -> Result<Start, Damaged>
        ensures keeps { Keeps list.old list.new }
    {
        let first = usize::next(list)?;
        let second = usize::next(list)?;
        let v0 = u32::next(list)?;
        Ok(Start { first, second, v0 })
    }
}

// Makes the call. The two stretches stand where a shell has its wires.
fn correction(c: Counts, a: Start, s: &Shell) -> Answer<u32, 2> {
    let first = Stretch {
        uses: s.wires.first.cells(),
        count: a.first,
    };
    let second = Stretch {
        uses: s.wires.second.cells(),
        count: a.second,
    };
    answer_of(correction::nearest_correction(&tables(c, s), &first, &second, a.v0))
}

// Replays nearest_correction.
pub fn replay_correction(list: &mut Reader<'_>, shell: &mut Shell) -> Result<(), Damaged>
    ensures compares { Compares list.old list.new }
{
    let counts = Counts::read(list)?;
    let start = Start::read(list)?;
    shell.read(list)?;
    correction(counts, start, shell).compare(list)
}
