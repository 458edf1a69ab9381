// Document 01's "Non-simple wire", `find_loop`: the first place of a wire whose edge number stood before.

ghost use Rattle.std.specs.Prelude.{◌≡◌, ℕ, ◌/◌, ◌≤◌, ◌<◌, Some, None, length, get_or, set, drop};
ghost use Rattle.compress.specs.Wires.{UsesBelow};
ghost use Rattle.non_simple.specs.loops.Loop.{first_repeat, forgotten, table_after};

// The earlier and the later place of an edge number that stands twice.
#[derive(Clone, Copy)]
pub struct Pair {
    pub earlier: usize,
    pub later: usize,
}

// The Rust's `insert`: entry e now holds the place, and the answer is what it held.
fn visit(places: &mut [Option<u16>], e: usize, place: usize) -> Option<usize>
    requires { (e < length places.old) × (place < 65536) }
    ensures held { result ≡ get_or places.old e None }
    ensures places_after { places.new ≡ set places.old e (Some place) }
{
    places[e].replace(place as u16).map(usize::from)
}

// The entries of the edges that stand from place `from` on are emptied, "with nothing remembered".
#[tactic(auto, using(crate::proofs::loops::Search::forgetting))]
fn forget(wire: &[u32], from: usize, places: &mut [Option<u16>])
    requires from_in_bounds { from ≤ length wire.now }
    requires by_index { UsesBelow (length places.old) wire.now }
    ensures places_after { places.new ≡ forgotten (drop from wire.now) places.old }
{
    for u in &wire[from..] {
        places[(*u / 2) as usize] = None;
    }
}

// `find_loop`: the first place from `from` on whose edge stood at an earlier place from `from` on, and the latest such place.
// Entry e of `places` is lent for the latest place of edge e. What the table held before does not matter.
// The whole wire and a place, since the places of the answer count from its start.
#[tactic(auto, using(crate::proofs::loops::Search::searching))]
pub fn find_loop(wire: &[u32], from: usize, places: &mut [Option<u16>]) -> Option<Pair>
    requires from_in_bounds { (from ≤ length wire.now) × (length wire.now ≤ 1024) }
    requires by_index { UsesBelow (length places.old) wire.now }
    ensures result_value { result ≡ first_repeat from wire.now }
    ensures places_after { places.new ≡ table_after from wire.now places.old }
{
    forget(wire, from, places);
    for (later, u) in wire.iter().enumerate().skip(from) {
        if let Some(earlier) = visit(places, (*u / 2) as usize, later) {
            return Some(Pair { earlier, later });
        }
    }
    None
}
