// What is written of a shell, and of the step at which the way ends. No write is told to have failed: the printer passes over it.

ghost use Rattle.std.specs.Prelude.{◌≡◌, IfErr, IsOk};
ghost use Rattle.pipe_shell.specs.declared.Stop.{Stop};

use crate::{EDGES, Edges, Shell, Stop, Wires, notation};
use compress::{Edge, Preparation};
use printing::Onward;
use std::io;

// The end of the line of the step at which the way ends. No Display: one stop has no text and no end of a line, and one is an error of writing.
pub fn write_stop(rt: &Onward<impl Print>, stop: Stop) -> io::Result<()>
    ensures { IfErr result (λ e. stop ≡ Stop.Unwritten e) }
{
    match stop {
        Stop::Refused(r) => {
            let number = u32::from(r);
            println!(rt; " refused, number {number}")
        }
        Stop::NoResult => println!(rt; " none"),
        Stop::OtherOpen => Ok(()),
        Stop::Unwritten(e) => Err(e),
    }
}

// A preparation as it stands behind an edge: a square one is not named.
fn named(p: Preparation) -> &'static str {
    match p {
        Preparation::Square => "",
        Preparation::SingleBevel => " single bevel",
        Preparation::DoubleBevel => " double bevel",
    }
}

// An edge by its number, with its two vertices and its preparation, as 2 = (2, 0) single bevel.
fn write_edge(rt: &Onward<impl Print>, e: usize, edge: Edge) -> io::Result<()>
    ensures { IsOk result }
{
    let front = edge.front;
    let back = edge.back;
    let preparation = named(edge.preparation);
    print!(rt; " {e} = ({front}, {back}){preparation}")
}

// The edges from a number on, of those for which there are cells.
fn write_edges(rt: &Onward<impl Print>, edges: &Edges, from: usize) -> io::Result<()>
    ensures { IsOk result }
{
    print!(rt; "   edges")?;
    let table = edges.table();
    for e in from..edges.count.min(EDGES) {
        if e != from {
            print!(rt; ",")?;
        }
        write_edge(rt, e, table.at(e))?;
    }
    println!(rt; "")
}

// The wires, a stroke between them.
pub fn write_wires(rt: &Onward<impl Print>, w: &Wires) -> io::Result<()>
    ensures { IsOk result }
{
    let wires = notation::Wires(w.lent());
    println!(rt; "   wires{wires}")
}

// The edges from a number on, and the wires.
pub fn write_shell(rt: &Onward<impl Print>, s: &Shell, from: usize) -> io::Result<()>
    ensures { IsOk result }
{
    write_edges(rt, &s.edges, from)?;
    write_wires(rt, &s.wires)
}
