// The shell of the burner pipe, and what a host would supply for it. Radius 1, height 4.
#![tactic(auto)]

mod notation;
pub mod pipe_tally;
pub mod writing;

ghost use Rattle.std.specs.Prelude.{◌≡◌, [], ◌∷◌, drop, get_or, replicate, take};
ghost use Rattle.pipe_shell.specs.Projected.{u_of, ends_of_rims};
ghost use Rattle.compress.specs.Wires.{wires_of};

use compress::{
    Curve, Edge, FLOATS_PER_EDGE, FLOATS_PER_VERTEX, NUMBERS_PER_EDGE, NUMBERS_PER_VERTEX,
    Preparation, Refusal, Uv, Vertex,
};
use rows::lent;
use rows::tables::{Row, Table, TableMut};
use std::io;
use std::marker::PhantomData;

// Once round the pipe.
pub const TURN: f64 = 6.283185307179586;

// Half the square root of 2: the cosine of an eighth of a turn.
const HALF_ROOT: f64 = 0.7071067811865476;

const HEIGHT: f64 = 4.0;

// A table of records with its cells. The arrays have a count and are no ArrayVec: a call is lent them whole, and writes rows past the count.
#[derive(Clone, Copy)]
pub struct Owned<R, const N: usize, const F: usize> {
    pub numbers: [u32; N],
    pub floats: [f64; F],
    pub count: usize,
    pub of: PhantomData<R>,
}

// The vertices of the cut rims, and the halves of the rims with two seams: so many rows are lent. The sizes of the arrays are numbers of their own, as a
// type's argument is not worked out; that they are those of so many rows is proved here.
pub const VERTICES: usize = 4;

pub const EDGES: usize = 6;

const _: () = prove!(12 == VERTICES * NUMBERS_PER_VERTEX);

const _: () = prove!(28 == VERTICES * FLOATS_PER_VERTEX);

const _: () = prove!(30 == EDGES * NUMBERS_PER_EDGE);

const _: () = prove!(36 == EDGES * FLOATS_PER_EDGE);

// The vertices, with room for those of the cut rims.
pub type Vertices = Owned<Vertex, 12, 28>;

// The edges, with room for the halves of the rims and for two seams.
pub type Edges = Owned<Edge, 30, 36>;

// Wires, with room for every use of the last step: arrays with a count, since a call is lent them whole, as those of a table.
#[derive(Clone, Copy)]
pub struct Wires {
    pub uses: [u32; 8],
    pub lengths: [u32; 8],
    pub count: usize,
}

// The whole shell.
#[derive(Clone, Copy)]
pub struct Shell {
    pub vertices: Vertices,
    pub edges: Edges,
    pub wires: Wires,
}

// Why the way ends before the contours.
#[derive(Drop)]
pub enum Stop {
    // A call refuses what it is lent.
    Refused(Refusal),
    // A call answers "none".
    NoResult,
    // Other wires are open than the two rims.
    OtherOpen,
    // What is to be shown could not be written.
    Unwritten(io::Error),
}

impl From<Refusal> for Stop {
    ghost use Rattle.pipe_shell.specs.declared.Stop.{Stop};

    ghost from_gives = { λ r s. s ≡ Stop.Refused r };

    fn from(r: Refusal) -> Stop {
        Stop::Refused(r)
    }
}

impl From<io::Error> for Stop {
    ghost use Rattle.pipe_shell.specs.declared.Stop.{Stop};

    ghost from_gives = { λ e s. s ≡ Stop.Unwritten e };

    fn from(e: io::Error) -> Stop {
        Stop::Unwritten(e)
    }
}

impl<R: Row, const N: usize, const F: usize> Owned<R, N, F> {
    // So many rows, with 0 in every cell.
    pub fn zeros(count: usize) -> Owned<R, N, F>
        ensures numbers_value { result.numbers ≡ replicate N 0 }
        ensures count_value { result.count ≡ count }
    {
        Owned {
            numbers: [0; N],
            floats: [0.0; F],
            count,
            of: PhantomData,
        }
    }

    // The table as a call is lent it, to be read.
    pub fn table(&self) -> Table<'_, R>
        ensures numbers_value { result.numbers.now ≡ self.now.numbers }
        ensures floats_value { result.floats.now ≡ self.now.floats }
        ensures count_value { result.count ≡ self.now.count }
    {
        Table::new(&self.numbers, &self.floats, self.count)
    }

    // The table as a call is lent it, to be written.
    pub fn table_mut(&mut self) -> TableMut<'_, R>
        ensures numbers_value { result.numbers.now ≡ self.old.numbers }
        ensures floats_value { result.floats.now ≡ self.old.floats }
        ensures count_value { result.count ≡ self.old.count }
    {
        let count = self.count;
        let numbers = &mut self.numbers;
        let floats = &mut self.floats;
        TableMut::new(&mut numbers[..], &mut floats[..], count)
    }
}

impl Wires {
    // The wires as a call is lent them.
    pub fn lent(&self) -> lent::Wires<'_>
        ensures uses_value { result.uses.now ≡ self.now.uses }
        ensures lengths_value { result.lengths.now ≡ self.now.lengths }
        ensures count_value { result.count ≡ self.now.count }
    {
        lent::Wires {
            uses: &self.uses,
            lengths: &self.lengths,
            count: self.count,
        }
    }

    // The length of wire k.
    fn length_of(&self, k: usize) -> usize
        ensures { result ≡ get_or self.now.lengths k 0 }
    {
        notation::at(&self.lengths, k) as usize
    }

    // The uses of the second wire, and what stands behind them.
    fn second(&self) -> &[u32]
        ensures { result.now ≡ drop (get_or self.now.lengths 0 0) self.now.uses }
    {
        notation::past(&self.uses, self.length_of(0))
    }

    // The first two wires as a call is lent them: the rims of the pipe.
    pub fn rims(&self) -> (lent::Stretch<'_>, lent::Stretch<'_>)
        ensures first { let w = self.now in (result.0.uses.now ≡ w.uses) × (result.0.count ≡ get_or w.lengths 0 0) }
        ensures second { let w = self.now in
            (result.1.uses.now ≡ drop (get_or w.lengths 0 0) w.uses) × (result.1.count ≡ get_or w.lengths 1 0) }
    {
        let first = lent::Stretch {
            uses: &self.uses,
            count: self.length_of(0),
        };
        let second = lent::Stretch {
            uses: self.second(),
            count: self.length_of(1),
        };
        (first, second)
    }
}

// The cosine of so many eighths of a turn.
fn cosine(eighths: u32) -> f64 {
    match eighths % 8 {
        0 => 1.0,
        1 | 7 => HALF_ROOT,
        2 | 6 => 0.0,
        3 | 5 => -HALF_ROOT,
        _ => -1.0,
    }
}

// The sine: the cosine of six eighths more.
fn sine(eighths: u32) -> f64 {
    cosine(eighths % 8 + 6)
}

// The point of a vertex, as a host evaluates it: 0 and 1 where the rims begin, 2 and 3 where they will be cut, k eighths of the way round.
fn point_of(v: usize, k: u32) -> Vertex {
    let eighths = if v < 2 { 0 } else { k };
    Vertex::Given {
        x: cosine(eighths),
        y: sine(eighths),
        z: if v % 2 == 0 { 0.0 } else { HEIGHT },
    }
}

// So many given vertices, where the rims are cut by k.
pub fn given(count: usize, k: u32) -> Vertices
    ensures { result.count ≡ count }
{
    let mut vertices = Vertices::zeros(VERTICES);
    let mut table = vertices.table_mut();
    for v in 0..VERTICES {
        table.put(v, point_of(v, k));
    }
    vertices.count = count;
    vertices
}

// A rim: the closed edge at the vertex of its number, a span of the curve of its number, with a single bevel for the weld.
fn rim(number: u32) -> Edge {
    Edge {
        front: number,
        back: number,
        curve: Curve::Span {
            number,
            t0: 0.0,
            t1: TURN,
        },
        preparation: Preparation::SingleBevel,
    }
}

// The rims 0 = (0, 0) and 1 = (1, 1).
fn rims() -> Edges {
    let mut edges = Edges::zeros(2);
    let mut table = edges.table_mut();
    table.put(0, rim(0));
    table.put(1, rim(1));
    edges
}

// The pipe as a drawing office sends it, with the wires 0+ and 1-.
pub fn burner_pipe() -> Shell
    ensures vertices { result.vertices.count ≡ 2 }
    ensures wires { wires_of result.wires.uses (take result.wires.count result.wires.lengths) ≡ (0 ∷ []) ∷ (3 ∷ []) ∷ [] }
{
    Shell {
        vertices: given(2, 0),
        edges: rims(),
        wires: Wires {
            uses: [0, 3, 0, 0, 0, 0, 0, 0],
            lengths: [1, 1, 0, 0, 0, 0, 0, 0],
            count: 2,
        },
    }
}

// The uv point of a vertex, as a host projects it: 0 and 1 at the start of the turn, 2 and 3 where the rims are cut by k.
pub fn uv_of(v: u32, k: u32) -> Uv
    ensures { result.u ≡ u_of v k }
{
    Uv {
        u: if v < 2 {
            0.0
        } else {
            floats::cut_parameter(0.0, TURN, k)
        },
        v: if v % 2 == 0 { 0.0 } else { HEIGHT },
    }
}

// The uv points of each wire's first and last end and its area, as a host finds them along the wire: the lower rim goes round
// forward, the upper one back.
pub fn ends_of_wires() -> [f64; 10]
    ensures { result ≡ ends_of_rims }
{
    [0.0, 0.0, TURN, 0.0, 0.0, TURN, HEIGHT, 0.0, HEIGHT, 0.0]
}
