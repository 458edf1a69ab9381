// Document 01's "Non-simple wire": the search over all wires for one that uses an edge twice, and where it is divided.
#![tactic(auto)]

mod divisor;
mod loops;

ghost use Rattle.std.specs.Prelude.{◌≡◌, ◌-◌, ◌<◌, length};
ghost use Rattle.compress.specs.Refusals.{cause_of};
ghost use Rattle.compress.specs.Said.{said_if};
ghost use Rattle.rows.specs.Held.{vertices_in, edges_in, wires_in};
ghost use Rattle.checks.specs.Causes.{wires_cause};
ghost use Rattle.non_simple.specs.divisor.Divided.{turned_divisor};
ghost use Rattle.non_simple.specs.divisor.Wires.{IsWire};
ghost use Rattle.non_simple.specs.Search.{wire_divisor, find_divisor, search_cause, find_non_simple};
ghost use Rattle.rows.specs.Held.{shell_in};
ghost use Rattle.rows.specs.wires.Turn.{turned};

use crate::divisor::doubled::Doubled;
use crate::loops::Pair;
use compress::{Checked, Refusal};
use correction::nearest::Ends;
use correction::nearest::sound::SoundTables;
use rows::lent::Wires;
use rows::tables::Tables;

// ---- one wire

// `non_simple_wire_divisor`, for a wire that is turned. The tables and the places are two parameters, here and below: a method of both would have to say
// that it keeps the tables.
fn turned_divisor(
    tables: &SoundTables,
    doubled: &Doubled,
    places: &mut [Option<u16>; 4096],
) -> Result<Option<Ends>, Refusal>
    requires wire_sound { IsWire tables.now.edges.count doubled.now.wire.now }
    ensures { said_if (λ e. e) result ≡ turned_divisor (edges_in tables.now.edges) (vertices_in tables.now.vertices)
        doubled.now.wire.now doubled.now.j0 }
{
    let found = loops::find_loop(doubled.wire, doubled.j0 + 1, places);
    divisor::divide(tables, doubled, found)
}

// The wire is turned so that the earlier of the two places is 0, and divided.
#[tactic(auto, using(crate::proofs::Scanning::turned_front))]
fn turn_and_divide(
    tables: &SoundTables,
    wire: &[u32],
    first: Pair,
    places: &mut [Option<u16>; 4096],
) -> Result<Option<Ends>, Refusal>
    requires first_in_wire { (first.earlier < first.later) × (first.later < length wire.now) }
    requires wire_sound { IsWire tables.now.edges.count wire.now }
    ensures { said_if (λ e. e) result ≡ turned_divisor (edges_in tables.now.edges) (vertices_in tables.now.vertices)
        (turned first.earlier wire.now) (first.later - first.earlier) }
{
    let mut out = [0u32; 1024];
    rows::wires::rotate_left(wire, first.earlier, &mut out);
    let doubled = Doubled {
        wire: &out[..wire.len()],
        j0: first.later - first.earlier,
    };
    turned_divisor(tables, &doubled, places)
}

// `non_simple_wire_divisor`: the two vertices between which a wire that uses an edge twice is to be divided.
#[tactic(auto, using(crate::proofs::loops::Repeats::pair_in), unfolding(crate::specs::Search::wire_divisor))]
fn wire_divisor(
    tables: &SoundTables,
    wire: &[u32],
    places: &mut [Option<u16>; 4096],
) -> Result<Option<Ends>, Refusal>
    requires wire_sound { IsWire tables.now.edges.count wire.now }
    ensures { said_if (λ e. e) result ≡ wire_divisor (edges_in tables.now.edges) (vertices_in tables.now.vertices) wire.now }
{
    let Some(first) = loops::find_loop(wire, 0, places) else {
        return Ok(None);
    };
    turn_and_divide(tables, wire, first, places)
}

// ---- all wires

// The wires in order, until one of them answers or is refused. That they have no cause is a clause: this function alone asks it, and a type would be
// made in one place.
#[tactic(auto, using(crate::proofs::Scanning::scanning))]
fn search_wires(
    tables: &SoundTables,
    wires: &Wires,
    places: &mut [Option<u16>; 4096],
) -> Result<Option<Ends>, Refusal>
    requires wires_sound { wires_cause tables.now.edges.count wires.now.uses.now wires.now.lengths.now wires.now.count ≡ 0 }
    ensures { said_if (λ e. e) result ≡ find_divisor (edges_in tables.now.edges) (vertices_in tables.now.vertices) (wires_in wires.now) }
{
    for wire in wires.each() {
        if let Some(ends) = wire_divisor(tables, wire, places)? {
            return Ok(Some(ends));
        }
    }
    Ok(None)
}

#[tactic(auto, unfolding(crate::specs::Search::search_cause))]
fn search_cause(tables: &Tables, wires: &Wires) -> Checked
    ensures { cause_of result ≡ search_cause (shell_in tables.now.vertices tables.now.edges wires.now) }
{
    let t = checks::points::tables_cause(tables);
    let w = checks::wires(tables.edges.count, wires);
    checks::lower(t, w)
}

// `find_non_simple_wire_divisor`: of the wires in order the first that can be divided, by the two vertices between which it is.
#[tactic(auto, using(crate::proofs::Scanning::checked), unfolding(crate::specs::Search::find_non_simple))]
pub fn find_non_simple_wire_divisor(tables: &Tables, wires: &Wires) -> Result<Option<Ends>, Refusal>
    ensures { said_if (λ e. e) result ≡ find_non_simple (shell_in tables.now.vertices tables.now.edges wires.now) }
{
    search_cause(tables, wires)?;
    let tables = SoundTables {
        vertices: tables.vertices,
        edges: tables.edges,
    };
    let mut places = [None; 4096];
    search_wires(&tables, wires, &mut places)
}
