// Document 01's "Non-simple wire", one wire: where it is divided, once an edge number that stands twice was found.

ghost use Rattle.std.specs.Prelude.{◌≡◌, ◌+◌, ◌≤◌, ◌<◌, length};
ghost use Rattle.rows.specs.Held.{vertices_in, edges_in};
ghost use Rattle.compress.specs.Said.{said_if};
ghost use Rattle.non_simple.specs.loops.Loop.{first_repeat};
ghost use Rattle.non_simple.specs.divisor.Divided.{second_pair, turned_divisor};
ghost use Rattle.non_simple.specs.divisor.Wires.{IsWire};

pub mod doubled;

use crate::loops::Pair;
use compress::Refusal;
use correction::nearest::Ends;
use correction::nearest::sound::SoundTables;
use doubled::Doubled;

// The places i1 and j1: the pair found past j0, or j0 and the length.
#[tactic(auto, using(crate::proofs::divisor::Divisors::second_in), unfolding(crate::specs::divisor::Divided::second_pair))]
fn second_pair(found: Option<Pair>, doubled: &Doubled) -> Pair
    requires found_value { found ≡ first_repeat (doubled.now.j0 + 1) doubled.now.wire.now }
    ensures value { let w = doubled.now.wire.now in
        let j0 = doubled.now.j0 in
        result ≡ second_pair (first_repeat (j0 + 1) w) j0 (length w) }
    ensures in_order { result.earlier < result.later }
    ensures inside { result.later ≤ length doubled.now.wire.now }
{
    let lacking = Pair {
        earlier: doubled.j0,
        later: doubled.wire.len(),
    };
    found.unwrap_or(lacking)
}

// `non_simple_wire_divisor`, for a wire that is turned. `found` was found past j0.
#[tactic(auto, using(correction::proofs::nearest::Fronts::front_below), unfolding(crate::specs::divisor::Divided::turned_divisor, crate::specs::divisor::Divided::divided_by))]
pub fn divide(
    tables: &SoundTables,
    doubled: &Doubled,
    found: Option<Pair>,
) -> Result<Option<Ends>, Refusal>
    requires wire_sound { IsWire tables.now.edges.count doubled.now.wire.now }
    requires found_value { found ≡ first_repeat (doubled.now.j0 + 1) doubled.now.wire.now }
    ensures { said_if (λ e. e) result ≡ turned_divisor (edges_in tables.now.edges) (vertices_in tables.now.vertices)
        doubled.now.wire.now doubled.now.j0 }
{
    let second = second_pair(found, doubled);
    let Doubled { wire, j0, .. } = *doubled;
    let k0 = j0.div_ceil(2);
    let k1 = (second.earlier + second.later).div_ceil(2);
    if k1 >= wire.len() {
        return Err(Refusal::PastEnd);
    }
    let v0 = tables.edges.front(wire[k0]);
    Ok(correction::nearest::nearest_ends(
        tables,
        &wire[1..j0],
        &wire[second.earlier + 1..second.later],
        v0,
    ))
}
