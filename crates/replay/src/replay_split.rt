// Replays one stored call of split_boundaries_by_divisor.

ghost use Rattle.stored.specs.Compared.{Compares, Keeps};

use records::{Counts, Pair, Shell, Table};
use split::seams::Divisor;
use stored::stored_cells::Cell;
use stored::stored_records::answers::Answer;
use stored::stored_records::tables as records;
use stored::{Damaged, Reader};

// How many wires of the face, wires to be rebuilt and vertices on the divisor the call was told, and the number of the surface.
#[derive(Clone, Copy)]
struct Asked {
    face: usize,
    rebuilt: usize,
    divisor: usize,
    surface: u32,
}

// What the call is lent beside the edges and the wires that it builds: the wires of the face, those to be rebuilt, and the divisor.
#[derive(Clone, Copy, Default)]
pub struct Lent {
    pub face: Pair,
    pub rebuilt: Pair,
    pub divisor: Table,
}

impl Asked {
    fn read(list: &mut Reader<'_>) -> Result<Asked, Damaged>
        ensures keeps { Keeps list.old list.new }
    {
        let face = usize::next(list)?;
        let rebuilt = usize::next(list)?;
        let divisor = usize::next(list)?;
        let surface = u32::next(list)?;
        Ok(Asked {
            face,
            rebuilt,
            divisor,
            surface,
        })
    }
}

impl Lent {
    fn read(&mut self, list: &mut Reader<'_>) -> Result<(), Damaged>
        ensures keeps { Keeps list.old list.new }
    {
        self.face.read(list)?;
        self.rebuilt.read(list)?;
        self.divisor.read(list)
    }
}

// Makes the call, which writes to the edges and the wires.
fn divided(c: Counts, a: Asked, s: &mut Shell, b: &Lent) -> Answer<usize, 3> {
    let divisor = Divisor {
        vertices: b.divisor.first.cells(),
        points: b.divisor.second.cells(),
        count: a.divisor,
    };
    let made = split::split_boundaries_by_divisor(
        c.vertices,
        &mut s.edges.lent_mut(c.edges),
        &b.face.lent(a.face),
        &b.rebuilt.lent(a.rebuilt),
        &divisor,
        s.wires.first.cells_mut(),
        s.wires.second.cells_mut(),
        a.surface,
    );
    Answer::from(made.map(|b| [b.wires, b.uses, b.edges]))
}

// Replays split_boundaries_by_divisor.
pub fn replay_split(
    list: &mut Reader<'_>,
    shell: &mut Shell,
    lent: &mut Lent,
) -> Result<(), Damaged>
    ensures compares { Compares list.old list.new }
{
    let counts = Counts::read(list)?;
    let asked = Asked::read(list)?;
    shell.edges.read(list)?;
    lent.read(list)?;
    shell.wires.read(list)?;
    divided(counts, asked, shell, lent).compare(list)?;
    shell.edges.compare(list)?;
    shell.wires.compare(list)
}
