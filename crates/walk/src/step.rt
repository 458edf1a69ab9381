// One step of the walk: its arrival at a vertex, and the use that is taken there.

ghost use Rattle.std.specs.Prelude.{◌≡◌, ℕ, ◌/◌, ◌≤◌, ◌<◌, length, get_or};
ghost use Rattle.compress.specs.Wires.{UsesBelow};
ghost use Rattle.walk.specs.lists.Ends.{marked_of};
ghost use Rattle.walk.specs.lists.Lists.{Tables};
ghost use Rattle.walk.specs.Walk.{exactly_one};
ghost use Rattle.walk.specs.step.Arrival.{Went};

use crate::lists::UseLists;
use compress::Refusal;

fn marked(marks: &[u32], u: u32) -> bool
    requires { u / 2 < length marks.now }
    ensures { result ≡ marked_of marks.now u }
{
    1 < marks[(u / 2) as usize]
}

// Of two uses of a list: whether the first is taken, after the use `last`.
fn takes_first(marks: &[u32], last: u32, first: u32) -> bool
    requires { (last / 2 < length marks.now) × (first / 2 < length marks.now) }
    ensures { result ≡ exactly_one (marked_of marks.now last) (marked_of marks.now first) }
{
    marked(marks, last) != marked(marks, first)
}

// The walk arrives at v with the use `last`. "If the back's list has one use, take it; if two, take the first where exactly one of
// current use and first use is marked, else the second. An emptied list is dropped. A list missing on arrival is a dead end (11), one of
// three or more is a crowd (12), an empty one is 13".
pub fn onward(
    marks: &[u32],
    uses: &[u32],
    lists: &mut UseLists,
    v: usize,
    last: u32,
) -> Result<u32, Refusal>
    requires in_table { v < 4096 }
    requires few { length uses.now ≤ 1024 }
    requires last_marked { last / 2 < length marks.now }
    requires marked { UsesBelow (length marks.now) uses.now }
    requires tables { Tables (length uses.now) lists.old.head lists.old.next }
    ensures { Went (marked_of marks.now) uses.now lists.old.head lists.old.next v last result lists.new.head lists.new.next }
{
    let list = lists.list_of(v).ok_or(Refusal::DeadEnd)?;
    let p = list.ok_or(Refusal::EmptyList)?;
    let Some(a) = lists.place_before(p) else {
        lists.set_last(v, None);
        return Ok(uses[p]);
    };
    if lists.place_before(a).is_some() {
        return Err(Refusal::TooManyUses);
    }
    let first = uses[a];
    if takes_first(marks, last, first) {
        lists.make_first(p);
        return Ok(first);
    }
    lists.set_last(v, Some(a));
    Ok(uses[p])
}
