// Document 000, `split_closed_faces.rs`: the nearest ends of two stretches, over tables and stretches that were checked.

ghost use Rattle.std.specs.Prelude.{◌≡◌, ℕ, ◌+◌, ◌*◌, ◌/◌, ◌≤◌, ◌<◌, length, get_or};
ghost use Rattle.compress.specs.Choice.{smaller};
ghost use Rattle.compress.specs.Wires.{UsesBelow};
ghost use Rattle.compress.specs.Points.{point_of};
ghost use Rattle.compress.specs.Rows.{HasVertex};
ghost use Rattle.compress.specs.Said.{said_if};
ghost use Rattle.correction.specs.nearest.Ends.{point_gap, away_at, gap_of, nearest_front, nearest_ends};
ghost use Rattle.rows.specs.Held.{vertices_in, edges_in};

pub mod sound;

use compress::{Vertex, Xyz};
use rows::tables::Table;
use sound::SoundTables;

// The squared distance of two points.
#[tactic(auto, unfolding(crate::specs::nearest::Ends::point_gap))]
fn gap(p: Xyz, q: Xyz) -> f64
    ensures { result ≡ point_gap p q }
{
    floats::distance2_xyz(p, q)
}

// A vertex, with its squared distance from a point.
#[derive(Clone, Copy)]
struct Away {
    vertex: u32,
    gap: f64,
}

impl Away {
    // Of two vertices the one that is less away; the first on a tie.
    fn nearer(self, other: Away) -> Away
        ensures { result ≡ smaller gap_of self other }
    {
        periodic::smaller(|a: Away| a.gap, self, other)
    }
}

// The answer of nearest ends: a vertex of the first stretch and one of the second.
#[derive(Clone, Copy)]
pub struct Ends {
    pub v0: u32,
    pub v1: u32,
}

// The point of vertex v.
fn point_at(vertices: &Table<Vertex>, v: u32) -> Xyz
    requires { HasVertex vertices.now.numbers.now vertices.now.floats.now v }
    ensures { result ≡ point_of (vertices_in vertices.now v) }
{
    Xyz::from(vertices.at(v as usize))
}

fn away_at(vertices: &Table<Vertex>, from: Xyz, v: u32) -> Away
    requires { HasVertex vertices.now.numbers.now vertices.now.floats.now v }
    ensures { result ≡ away_at (vertices_in vertices.now) from v }
{
    Away {
        vertex: v,
        gap: gap(from, point_at(vertices, v)),
    }
}

// The front that is nearest to vertex p in a stretch of use u and those that follow.
fn nearest_front(tables: &SoundTables, u: u32, us: &[u32], p: u32) -> u32
    requires p_in_table { p < tables.now.vertices.count }
    requires u_in_table { u / 2 < tables.now.edges.count }
    requires us_in_table { UsesBelow tables.now.edges.count us.now }
    ensures value { result ≡ nearest_front (edges_in tables.now.edges) (vertices_in tables.now.vertices) p u us.now }
    ensures below { result < tables.now.vertices.count }
{
    let from = point_at(&tables.vertices, p);
    let first = tables.edges.front(u);
    let mut best = away_at(&tables.vertices, from, first);
    for w in us {
        let v = tables.edges.front(*w);
        best = best.nearer(away_at(&tables.vertices, from, v));
    }
    best.vertex
}

// From v0 the nearest front of the second stretch, from there the nearest front of the first. "An empty stretch gives "none"."
#[tactic(auto, unfolding(crate::specs::nearest::Ends::nearest_ends))]
pub fn nearest_ends(tables: &SoundTables, first: &[u32], second: &[u32], v0: u32) -> Option<Ends>
    requires v0_in_table { v0 < tables.now.vertices.count }
    requires first_in_table { UsesBelow tables.now.edges.count first.now }
    requires second_in_table { UsesBelow tables.now.edges.count second.now }
    ensures { said_if (λ e. e) (Ok result) ≡ nearest_ends (edges_in tables.now.edges) (vertices_in tables.now.vertices)
        v0 first.now second.now }
{
    let (u, us) = second.split_first()?;
    let v1 = nearest_front(tables, *u, us, v0);
    let (u, us) = first.split_first()?;
    let v0 = nearest_front(tables, *u, us, v1);
    Some(Ends { v0, v1 })
}
