// Replays one stored call of those that cut an edge where they are told: cut_edge_by_intersections and cut_edge_at_points.

ghost use Rattle.stored.specs.Compared.{Compares, Keeps};

use edge_cuts::cuts::EdgeCuts;
use records::{Counts, Shell};
use stored::stored_cells::{Buffer, Cell};
use stored::stored_records::answers::Answer;
use stored::stored_records::tables as records;
use stored::{Damaged, Reader};

// How many wires the call was told, which edge is cut, and how many cuts the call was told.
#[derive(Clone, Copy)]
struct Asked {
    wires: usize,
    edge: u32,
    cuts: usize,
}

impl Asked {
    fn read(list: &mut Reader<'_>) -> Result<Asked, Damaged>
        ensures keeps { Keeps list.old list.new }
    {
        let wires = usize::next(list)?;
        let edge = u32::next(list)?;
        let cuts = usize::next(list)?;
        Ok(Asked { wires, edge, cuts })
    }
}

// The cuts as they are lent to a call.
fn lent<'a>(a: Asked, cuts: &'a Buffer<f64>) -> EdgeCuts<'a> {
    EdgeCuts {
        edge: a.edge,
        floats: cuts.cells(),
        count: a.cuts,
    }
}

// Makes the call cut_edge_by_intersections, which writes to the shell.
fn cut(c: Counts, a: Asked, s: &mut Shell, cuts: &Buffer<f64>) -> Answer<usize, 3> {
    Answer::from(one_cut::cut_edge_by_intersections(
        &mut s.vertices.lent_mut(c.vertices),
        &mut s.edges.lent_mut(c.edges),
        &mut s.wires.lent_mut(a.wires),
        &lent(a, cuts),
    ))
}

// Makes the call cut_edge_at_points, which writes to the shell.
fn cut_at_points(c: Counts, a: Asked, s: &mut Shell, cuts: &Buffer<f64>) -> Answer<usize, 3> {
    Answer::from(several_cuts::cut_edge_at_points(
        &mut s.vertices.lent_mut(c.vertices),
        &mut s.edges.lent_mut(c.edges),
        &mut s.wires.lent_mut(a.wires),
        &lent(a, cuts),
    ))
}

// Replays cut_edge_by_intersections.
pub fn replay_cut(
    list: &mut Reader<'_>,
    shell: &mut Shell,
    cuts: &mut Buffer<f64>,
) -> Result<(), Damaged>
    ensures compares { Compares list.old list.new }
{
    let counts = Counts::read(list)?;
    let asked = Asked::read(list)?;
    shell.read(list)?;
    cuts.read(list)?;
    cut(counts, asked, shell, cuts).compare(list)?;
    shell.compare(list)
}

// Replays cut_edge_at_points, whose records are as those of cut_edge_by_intersections.
pub fn replay_cuts(
    list: &mut Reader<'_>,
    shell: &mut Shell,
    cuts: &mut Buffer<f64>,
) -> Result<(), Damaged>
    ensures compares { Compares list.old list.new }
{
    let counts = Counts::read(list)?;
    let asked = Asked::read(list)?;
    shell.read(list)?;
    cuts.read(list)?;
    cut_at_points(counts, asked, shell, cuts).compare(list)?;
    shell.compare(list)
}
