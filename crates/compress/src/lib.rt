// The records of document 003 (`compress.rs`), the refusals of document 01, and the rows in which records lie in lent slices.
#![tactic(auto)]

ghost use Rattle.std.specs.Prelude.{◌≡◌, ◌+◌, ◌*◌, ◌/◌, ◌≤◌, pos, length, get_or};
ghost use Rattle.std.specs.Float.{nan};
ghost use Rattle.compress.specs.Records.{front_of, front_at, first_of, last_of, preparation_number};
ghost use Rattle.compress.specs.Points.{point_of, given};
ghost use Rattle.compress.specs.Refusals.{refusal_number};
ghost use Rattle.compress.specs.Layout.{put};
ghost use Rattle.compress.specs.Rows.{HasVertex, HasEdge, preparation_of, curve_of, curve_at, edge_at, vertex_at};

// A point of a surface's parameter plane.
#[derive(Clone, Copy)]
pub struct Uv {
    pub u: f64,
    pub v: f64,
}

// A point in space.
#[derive(Clone, Copy)]
pub struct Xyz {
    pub x: f64,
    pub y: f64,
    pub z: f64,
}

// A curve: a span of a numbered curve, or a seam on a numbered surface between two of its points. Both run from t0 to t1.
#[derive(Clone, Copy)]
pub enum Curve {
    Span {
        number: u32,
        t0: f64,
        t1: f64,
    },
    Seam {
        surface: u32,
        p: Uv,
        q: Uv,
        t0: f64,
        t1: f64,
    },
}

impl Uv {
    // The point of the two floats from place j on. By cell, here and below: no conversion of std makes a record of a part of a slice.
    pub fn read(floats: &[f64], j: usize) -> Uv
        requires { j + 2 ≤ length floats.now }
        ensures { result ≡ record { u = get_or floats.now j nan; v = get_or floats.now (j + 1) nan } }
    {
        Uv {
            u: floats[j],
            v: floats[j + 1],
        }
    }
}

impl Xyz {
    // The point of the three floats from place j on.
    pub fn read(floats: &[f64], j: usize) -> Xyz
        requires { j + 3 ≤ length floats.now }
        ensures { result ≡ record { x = get_or floats.now j nan; y = get_or floats.now (j + 1) nan; z = get_or floats.now (j + 2) nan } }
    {
        Xyz {
            x: floats[j],
            y: floats[j + 1],
            z: floats[j + 2],
        }
    }
}

impl Curve {
    // Where the curve begins and ends: t0 and t1.
    pub fn range(self) -> (f64, f64)
        ensures { (result.0 ≡ first_of self) × (result.1 ≡ last_of self) }
    {
        match self {
            Curve::Span { t0, t1, .. } | Curve::Seam { t0, t1, .. } => (t0, t1),
        }
    }
}

// How the plate is prepared for the weld along an edge (document 02, A.5), with its number there.
#[derive(Clone, Copy)]
pub enum Preparation {
    Square = 0,
    SingleBevel = 1,
    DoubleBevel = 2,
}

// The number of a preparation, as it lies in a row.
impl From<Preparation> for u32 {
    ghost from_gives = { λ p n. n ≡ preparation_number p };

    fn from(p: Preparation) -> u32 {
        p as u32
    }
}

// `CompressedEdge`: the two numbers of `vertices`, and `curve`; and the preparation, which the Rust's record does not have.
#[derive(Clone, Copy)]
pub struct Edge {
    pub front: u32,
    pub back: u32,
    pub curve: Curve,
    pub preparation: Preparation,
}

// A point of `CompressedShell`'s `vertices`: its coordinates, or the curve as it was before the cut, with the parameter. Three floats and no `Xyz`:
// the definitions of rows, causes and cuts speak of each.
#[derive(Clone, Copy)]
pub enum Vertex {
    Given { x: f64, y: f64, z: f64 },
    Pending { curve: Curve, t: f64 },
}

// The point of a vertex. A pending one has the point 0, as the definition says: with an Option a clause would ask that none is pending, and none
// asks it.
impl From<Vertex> for Xyz {
    ghost from_gives = { λ v p. p ≡ point_of v };

    #[tactic(auto, unfolding(crate::specs::Points::point_of))]
    fn from(v: Vertex) -> Xyz {
        match v {
            Vertex::Given { x, y, z } => Xyz { x, y, z },
            Vertex::Pending { .. } => Xyz {
                x: 0.0,
                y: 0.0,
                z: 0.0,
            },
        }
    }
}

// The vertex that is given as a point.
impl From<Xyz> for Vertex {
    ghost from_gives = { λ p v. v ≡ given p };

    fn from(p: Xyz) -> Vertex {
        Vertex::Given {
            x: p.x,
            y: p.y,
            z: p.z,
        }
    }
}

// Why a call is turned away: a case for each row of document 01's table, in its order, with its number there. The lowest number wins, so the
// lesser of two refusals is the one that a caller is told.
#[derive(Clone, Copy, PartialEq, Eq, PartialOrd, Ord)]
pub enum Refusal {
    Malformed = 1,
    VertexNumber = 2,
    EdgeNumber = 3,
    NotSized = 4,
    OutOfRange = 5,
    NoRoom = 6,
    PendingVertex = 7,
    PastEnd = 8,
    OddDivisor = 9,
    RepeatedVertex = 10,
    DeadEnd = 11,
    TooManyUses = 12,
    EmptyList = 13,
    SeveralCuts = 14,
    EmptyOpenWire = 15,
    TooManyCuts = 16,
    NotRising = 17,
    EighthsOutOfRange = 18,
}

// The number of a refusal in document 01's table, which document 02's numbers join.
impl From<Refusal> for u32 {
    ghost from_gives = { λ r n. n ≡ refusal_number r };

    fn from(r: Refusal) -> u32 {
        r as u32
    }
}

// The same as the code of a call.
impl From<Refusal> for i32 {
    ghost from_gives = { λ r n. n ≡ pos (refusal_number r) };

    fn from(r: Refusal) -> i32 {
        r as i32
    }
}

// What a check comes to: nothing, or why the call is turned away.
pub type Checked = Result<(), Refusal>;

// How many vertices, edges and uses a shell has.
#[derive(Clone, Copy)]
pub struct Counts {
    pub vertices: usize,
    pub edges: usize,
    pub uses: usize,
}

// The vertex at which the use `u` of the edge begins. A use is one number here and elsewhere, twice that of its edge, plus 1 when reversed: so
// it lies in the slices that hosts lend.
fn front(e: Edge, u: u32) -> u32
    ensures { result ≡ front_of e u }
{
    let first = e.front;
    let second = e.back;
    if u % 2 == 0 { first } else { second }
}

// ---- records put together from the cells of a row. Kinds are numbers there, as hosts lend them.

fn curve_of(kind: u32, number: u32, p: Uv, q: Uv, t0: f64, t1: f64) -> Curve
    ensures { result ≡ curve_of kind number p q t0 t1 }
{
    if kind == 0 {
        Curve::Span { number, t0, t1 }
    } else {
        Curve::Seam {
            surface: number,
            p,
            q,
            t0,
            t1,
        }
    }
}

// The preparation of a number. Total, as `curve_of`: a number above 2 is refused before it is read.
fn preparation_of(n: u32) -> Preparation
    ensures { result ≡ preparation_of n }
{
    match n {
        0 => Preparation::Square,
        1 => Preparation::SingleBevel,
        _ => Preparation::DoubleBevel,
    }
}

// The curve of a kind and a number, with its floats from place j on. A slice and a place, here and in `rows` and `tables`: a part of the slice would
// be named at each call by that place and a length.
fn curve_at(kind: u32, number: u32, floats: &[f64], j: usize) -> Curve
    requires { j + 6 ≤ length floats.now }
    ensures { result ≡ curve_at kind number floats.now j }
{
    let p = Uv::read(floats, j);
    let q = Uv::read(floats, j + 2);
    curve_of(kind, number, p, q, floats[j + T0], floats[j + T1])
}

// How many numbers, and how many floats, the row of an edge and that of a vertex have.
pub const NUMBERS_PER_EDGE: usize = 5;

pub const FLOATS_PER_EDGE: usize = 6;

pub const NUMBERS_PER_VERTEX: usize = 3;

pub const FLOATS_PER_VERTEX: usize = 7;

// Where the kind of its curve, the number of the curve or surface, and the preparation stand in the numbers of an edge, behind its two vertices.
pub const EDGE_KIND: usize = 2;

pub const EDGE_CURVE: usize = 3;

pub const EDGE_PREPARATION: usize = 4;

// The same of a pending vertex, behind its own kind.
pub const CURVE_KIND: usize = 1;

pub const VERTEX_CURVE: usize = 2;

// Where t0 and t1 stand in the floats of a curve, behind the two points of a seam, and where the parameter of a pending vertex, behind those of its curve.
pub const T0: usize = 4;

pub const T1: usize = 5;

pub const PARAMETER: usize = 6;

// The edge of row i. Here, as `vertex_at` is, below the trait `rows::tables::Row`, since `front_at` reads a row too.
pub fn edge_at(numbers: &[u32], floats: &[f64], i: usize) -> Edge
    requires { HasEdge numbers.now floats.now i }
    ensures { result ≡ edge_at numbers.now floats.now i }
{
    let a = i * NUMBERS_PER_EDGE;
    let kind = numbers[a + EDGE_KIND];
    let curve = curve_at(kind, numbers[a + EDGE_CURVE], floats, i * FLOATS_PER_EDGE);
    Edge {
        front: numbers[a],
        back: numbers[a + 1],
        curve,
        preparation: preparation_of(numbers[a + EDGE_PREPARATION]),
    }
}

// The front of a use.
pub fn front_at(numbers: &[u32], floats: &[f64], u: u32) -> u32
    requires { HasEdge numbers.now floats.now (u / 2) }
    ensures { result ≡ front_at (edge_at numbers.now floats.now) u }
{
    let i = (u / 2) as usize;
    front(edge_at(numbers, floats, i), u)
}

// The vertex of row i.
pub fn vertex_at(numbers: &[u32], floats: &[f64], i: usize) -> Vertex
    requires { HasVertex numbers.now floats.now i }
    ensures { result ≡ vertex_at numbers.now floats.now i }
{
    let a = i * NUMBERS_PER_VERTEX;
    let b = i * FLOATS_PER_VERTEX;
    if numbers[a] == 0 {
        return Vertex::from(Xyz::read(floats, b));
    }
    let kind = numbers[a + CURVE_KIND];
    let curve = curve_at(kind, numbers[a + VERTEX_CURVE], floats, b);
    Vertex::Pending {
        curve,
        t: floats[b + PARAMETER],
    }
}
