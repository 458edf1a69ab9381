// What the calls that cut edges share: their answer, causes 1 to 5 over all that they are lent, and how many cuts the tables have room for.
#![tactic(auto)]

pub mod cut_edge;
pub mod mending;
pub mod parameter;

ghost use Rattle.std.specs.Prelude.{◌≡◌, ◌&&◌, ℕ, ◌+◌, ◌*◌, ◌≤◌, leb, length};
ghost use Rattle.compress.specs.Refusals.{cause_of};
ghost use Rattle.compress.specs.Shell.{vertices_fit, edges_fit};
ghost use Rattle.compress.specs.Rows.{numbers_per_edge, floats_per_edge, numbers_per_vertex, floats_per_vertex};
ghost use Rattle.cutting.specs.Contract.{input_cause};
ghost use Rattle.rows.specs.Held.{shell_in};

use compress::{Checked, Edge, Vertex};
use rows::lent::Wires;
use rows::tables::Table;

// Causes 1 to 5, over all that is lent. Two tables, here and below, and no `Tables`: callers have them to be written, and would put it together at each call.
pub fn input_cause(vertices: &Table<Vertex>, edges: &Table<Edge>, wires: &Wires) -> Checked
    ensures { cause_of result ≡ input_cause (shell_in vertices.now edges.now wires.now) }
{
    let v = checks::tables::vertices(vertices);
    let e = checks::tables::edges(vertices.count, edges);
    let w = checks::wires(edges.count, wires);
    checks::lower(v, checks::lower(e, w))
}

// How many edges of a shell that has none of the causes can be cut, each by a new vertex, until a bound or a slice is full.
pub fn cut_room(vertices: &Table<Vertex>, edges: &Table<Edge>) -> usize
    requires vertices_bound { let v = vertices.now in
        (v.count ≤ 4096) × (v.count * numbers_per_vertex ≤ length v.numbers.now) × (v.count * floats_per_vertex ≤ length v.floats.now) }
    requires edges_bound { let e = edges.now in
        (e.count ≤ 4096) × (e.count * numbers_per_edge ≤ length e.numbers.now) × (e.count * floats_per_edge ≤ length e.floats.now) }
    ensures { let v = vertices.now in
        let e = edges.now in
        (k : ℕ) → leb k result ≡
        (vertices_fit v.numbers.now v.floats.now (v.count + k) && edges_fit e.numbers.now e.floats.now (e.count + k)) }
{
    vertices.room().min(edges.room())
}
