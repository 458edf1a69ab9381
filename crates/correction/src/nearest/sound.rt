// Tables that were checked, in a file of their own: what the ghost fields name is read before the definitions that name the struct.
ghost use Rattle.std.specs.Prelude.{◌≡◌};
ghost use Rattle.checks.specs.Causes.{vertices_cause, edges_cause};

use compress::{Edge, Vertex};
use rows::tables::Table;

// The vertices, and the edges between them, without any of the causes 1 to 5.
#[derive(Clone, Copy)]
pub struct SoundTables<'a> {
    pub vertices: Table<'a, Vertex>,
    pub edges: Table<'a, Edge>,
    pub ghost vertices_sound: { vertices_cause vertices.numbers.now vertices.floats.now vertices.count ≡ 0 },
    pub ghost edges_sound: { edges_cause vertices.count edges.numbers.now edges.floats.now edges.count ≡ 0 },
}
