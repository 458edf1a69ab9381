// The vertices on the divisor of a split with their causes, and the seams that they make.

ghost use Rattle.std.specs.Prelude.{◌≡◌, ℕ, ◌+◌, ◌*◌, ◌/◌, ◌≤◌, ◌<◌, [], length, get_or};
ghost use Rattle.std.specs.Float.{nan};
ghost use Rattle.compress.specs.Layout.{store_from, rows};
ghost use Rattle.compress.specs.Rows.{numbers_per_edge, floats_per_edge, edge_number_layout, edge_float_layout};
ghost use Rattle.compress.specs.Refusals.{cause_of};
ghost use Rattle.rows.specs.Places.{SameTable};
ghost use Rattle.split.specs.seams.Seams.{floats_per_stop, floats_per_pair, stop_at, seam_of, seams_of, repeats_after};
ghost use Rattle.split.specs.seams.Stops.{odd_cause, repeat_cause, stop_cause, stops_cause};

use compress::{Checked, Curve, Edge, Preparation, Refusal, Uv};
use rows::tables::TableMut;

// ---- the vertices on the divisor

// How many floats a vertex on the divisor has: its uv point.
const FLOATS_PER_STOP: usize = 2;

// A vertex on the divisor, "with its uv point".
#[derive(Clone, Copy)]
pub struct Stop {
    pub vertex: u32,
    pub point: Uv,
}

// The divisor, as a host lends it: vertices, their uv points, and how many they are said to be.
// Nothing is checked of it here.
#[derive(Clone, Copy)]
pub struct Divisor<'a> {
    pub vertices: &'a [u32],
    pub points: &'a [f64],
    pub count: usize,
}

impl Divisor<'_> {
    // The vertex in row i.
    fn stop_at(&self, i: usize) -> Stop
        requires { (i < length self.now.vertices.now) × (i * floats_per_stop + floats_per_stop ≤ length self.now.points.now) }
        ensures { result ≡ stop_at self.now.vertices.now self.now.points.now i }
    {
        Stop {
            vertex: self.vertices[i],
            point: Uv::read(self.points, i * FLOATS_PER_STOP),
        }
    }

    #[tactic(auto, unfolding(crate::specs::seams::Stops::stop_cause))]
    fn stop_cause(&self, vertices: usize, i: usize) -> Checked
        requires { (i < length self.now.vertices.now) × (i * floats_per_stop + floats_per_stop ≤ length self.now.points.now) }
        ensures { cause_of result ≡ stop_cause vertices self.now.vertices.now self.now.points.now i }
    {
        let stop = self.stop_at(i);
        checks::lower(
            checks::vertex_number(vertices, stop.vertex),
            checks::uv(stop.point),
        )
    }

    // Causes 1, 2 and 4 of the vertices on the divisor.
    #[tactic(auto, using(std::proofs::lemmas::Bool::Decides::nat_tests), unfolding(crate::specs::seams::Stops::stops_cause))]
    pub(crate) fn stops_cause(&self, vertices: usize) -> Checked
        ensures { cause_of result ≡ stops_cause vertices self.now.vertices.now self.now.points.now self.now.count }
    {
        let count = self.count;
        if self.vertices.len() < count || self.points.len() / FLOATS_PER_STOP < count {
            return Err(Refusal::Malformed);
        }
        checks::lowest_cause(count, |i| self.stop_cause(vertices, i))
    }

    // Cause 10. Few vertices have a small table, since to clear it takes time.
    pub(crate) fn repeat_cause(&self, vertices: usize) -> Checked
        requires lent { self.now.count ≤ length self.now.vertices.now }
        requires known { (k : ℕ) → k < self.now.count → get_or self.now.vertices.now k 0 < vertices }
        requires few { vertices ≤ 4096 }
        ensures { cause_of result ≡ repeat_cause self.now.vertices.now self.now.count }
    {
        let stops = &self.vertices[..self.count];
        let repeats = if vertices <= 64 {
            repeats_in::<64>(stops)
        } else {
            repeats_in::<4096>(stops)
        };
        checks::cause_when(repeats, Refusal::RepeatedVertex)
    }
}

// Cause 9.
pub(crate) fn odd_cause(count: usize) -> Checked
    ensures { cause_of result ≡ odd_cause count }
{
    checks::cause_when(count % 2 == 1, Refusal::OddDivisor)
}

// ---- a vertex twice

// Whether a vertex stands twice, of vertices below N: found by a table with an entry for each.
fn repeats_in<const N: usize>(divisor: &[u32]) -> bool
    requires table { N ≤ 4096 }
    requires known { (k : ℕ) → k < length divisor.now → get_or divisor.now k 0 < N }
    ensures { result ≡ repeats_after [] divisor.now }
{
    let mut seen = [false; N];
    for v in divisor {
        let v = *v as usize;
        if seen[v] {
            return true;
        }
        seen[v] = true;
    }
    false
}

// ---- the new edges

#[tactic(auto, unfolding(crate::specs::seams::Seams::seam_of))]
fn seam_of(surface: u32, a: Stop, b: Stop) -> Edge
    ensures { result ≡ seam_of surface a b }
{
    let curve = Curve::Seam {
        surface,
        p: a.point,
        q: b.point,
        t0: 0.0,
        t1: 1.0,
    };
    Edge {
        front: a.vertex,
        back: b.vertex,
        curve,
        preparation: Preparation::Square,
    }
}

// `create_new_edges`: a seam for each pair of vertices of the divisor is written to the rows past the table, whose count stays as it was lent.
pub(crate) fn create_new_edges(edges: &mut TableMut<Edge>, divisor: &Divisor, surface: u32)
    requires numbers_room { (edges.old.count + divisor.now.count / 2) * numbers_per_edge ≤ length edges.old.numbers.now }
    requires floats_room { (edges.old.count + divisor.now.count / 2) * floats_per_edge ≤ length edges.old.floats.now }
    requires stops_lent { divisor.now.count / 2 * 2 ≤ length divisor.now.vertices.now }
    requires points_lent { divisor.now.count / 2 * floats_per_pair ≤ length divisor.now.points.now }
    ensures edge_numbers_after { let stops = rows (stop_at divisor.now.vertices.now divisor.now.points.now) 0 (divisor.now.count / 2 * 2) in
        edges.new.numbers.now ≡ store_from edge_number_layout edges.old.numbers.now edges.old.count (seams_of surface stops) }
    ensures edge_floats_after { let stops = rows (stop_at divisor.now.vertices.now divisor.now.points.now) 0 (divisor.now.count / 2 * 2) in
        edges.new.floats.now ≡ store_from edge_float_layout edges.old.floats.now edges.old.count (seams_of surface stops) }
    ensures same { SameTable edges.old edges.new }
{
    let first = edges.count;
    for i in 0..divisor.count / 2 {
        let a = divisor.stop_at(i * 2);
        let b = divisor.stop_at(i * 2 + 1);
        edges.put(first + i, seam_of(surface, a, b));
    }
}
