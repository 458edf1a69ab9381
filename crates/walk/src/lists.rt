// The lists of uses by vertex: "uses go to their front vertex's list". The front and the back of a use,
// and the two tables that hold the lists.

ghost use Rattle.std.specs.Prelude.{◌≡◌, ℕ, ◌+◌, ◌-◌, ◌/◌, ◌≤◌, ◌<◌, length, get_or, set, IfSome, unwrap_or};
ghost use Rattle.walk.specs.lists.Ends.{end_of, front_in, back_in, EndsIn};
ghost use Rattle.walk.specs.lists.Lists.{place_of, list_of, head_at, entry_of, heads_after, nexts_after, Tables, Lowest};

use compress::{Edge, NUMBERS_PER_EDGE};
use rows::tables::Table;

// The edges of a walk: those of the lent table, and from its count on the pairs of the divisor. Nothing is checked of them here.
// Of the table the numbers are read, and lent as a table all the same: alone they would have a count beside them again.
#[derive(Clone, Copy)]
pub struct AllEdges<'e, 'd> {
    pub lent: Table<'e, Edge>,
    pub divisor: &'d [u32],
}

impl AllEdges<'_, '_> {
    // End j of edge e: 0 is its first vertex number, 1 its second. j is the last bit of a use and the place in the row: an enum would be made a number
    // at both. Read from the numbers alone, as EndsIn asks; `Table::front` asks for the floats too.
    #[tactic(auto, unfolding(crate::specs::lists::Ends::end_of))]
    fn end_of(&self, e: usize, j: usize) -> u32
        requires { EndsIn self.now e × (j < 2) }
        ensures { result ≡ end_of self.now.lent.numbers.now self.now.divisor.now self.now.lent.count e j }
    {
        let edges = self.lent.count;
        if e < edges {
            self.lent.numbers[e * NUMBERS_PER_EDGE + j]
        } else {
            self.divisor[(e - edges) * 2 + j]
        }
    }

    fn front(&self, u: u32) -> usize
        requires { EndsIn self.now (u / 2) }
        ensures { result ≡ front_in self.now u }
    {
        let k = u as usize;
        self.end_of(k / 2, k % 2) as usize
    }

    pub fn back(&self, u: u32) -> usize
        requires { EndsIn self.now (u / 2) }
        ensures { result ≡ back_in self.now u }
    {
        let k = u as usize;
        self.end_of(k / 2, 1 - k % 2) as usize
    }
}

// The lists of all vertices: `head` has an entry for each vertex, and `next` one for the place of each use.
// An arena of indices, since the calls that hosts make have fixed memory and no heap: an entry is a place + 2 in `head`,
// where 0 is no list and 1 an empty one, and a place + 1 in `next`, where 0 is none. Numbers and no Options for speed, measured: every walk clears
// both, and 4,096 entries of `Option<Option<u16>>` take 147 ns, of `u16` 62.
#[derive(Drop)]
pub(crate) struct UseLists {
    pub head: [u16; 4096],
    pub next: [u16; 1024],
}

impl UseLists {
    // The use at place i goes to the end of the list of v.
    fn push(&mut self, v: usize, i: usize)
        requires { (v < 4096) × (i < 1024) }
        ensures head_after { self.new.head ≡ set self.old.head v (i + 2) }
        ensures next_after { self.new.next ≡ set self.old.next i (get_or self.old.head v 0 - 1) }
    {
        self.next[i] = self.head[v].saturating_sub(1);
        self.set_last(v, Some(i));
    }

    // The list of v, if there is one: the place of its last use, if it has a use.
    pub(crate) fn list_of(&self, v: usize) -> Option<Option<usize>>
        requires { v < 4096 }
        ensures { result ≡ list_of (get_or self.now.head v 0) }
    {
        match self.head[v] {
            0 => None,
            1 => Some(None),
            h => Some(Some(usize::from(h) - 2)),
        }
    }

    // The place that stands before p in its list, if there is one.
    pub(crate) fn place_before(&self, p: usize) -> Option<usize>
        requires { p < 1024 }
        ensures { result ≡ place_of (get_or self.now.next p 0) }
    {
        match self.next[p] {
            0 => None,
            q => Some(usize::from(q) - 1),
        }
    }

    // The place p becomes the first of its list: what stands before is taken.
    pub(crate) fn make_first(&mut self, p: usize)
        requires { p < 1024 }
        ensures next_after { self.new.next ≡ set self.old.next p 0 }
        ensures head_same { self.new.head ≡ self.old.head }
    {
        self.next[p] = 0;
    }

    // The list of v ends at the place `last` from now on. Where it has no use left it is dropped: "an emptied list is dropped".
    pub(crate) fn set_last(&mut self, v: usize, last: Option<usize>)
        requires { (v < 4096) × IfSome last (λ p. p < 1024) }
        ensures head_after { self.new.head ≡ set self.old.head v (head_at last) }
        ensures next_same { self.new.next ≡ self.old.next }
    {
        self.head[v] = match last {
            None => 0,
            Some(p) => (p + 2) as u16,
        };
    }

    // The last use of the list of v is taken. The uses are lent apart: in the struct, every function that writes a list would say that they stay.
    pub(crate) fn pop(&mut self, uses: &[u32], v: usize) -> u32
        requires in_table { v < 4096 }
        requires few { length uses.now ≤ 1024 }
        requires has_uses { 1 < get_or self.old.head v 0 }
        requires tables { Tables (length uses.now) self.old.head self.old.next }
        ensures value { result ≡ get_or uses.now (get_or self.old.head v 0 - 2) 0 }
        ensures head_after { self.new.head ≡ set self.old.head v (entry_of (get_or self.old.next (get_or self.old.head v 0 - 2) 0)) }
        ensures next_same { self.new.next ≡ self.old.next }
    {
        let p = usize::from(self.head[v]) - 2;
        self.set_last(v, self.place_before(p));
        uses[p]
    }

    // "Uses go to their front vertex's list", in order.
    pub(crate) fn create_vemap(&mut self, edges: &AllEdges, uses: &[u32])
        requires few { length uses.now ≤ 1024 }
        requires there { (i : ℕ) → i < length uses.now → EndsIn edges.now (get_or uses.now i 0 / 2) }
        requires small { (i : ℕ) → i < length uses.now → front_in edges.now (get_or uses.now i 0) < 4096 }
        ensures head_after { self.new.head ≡ heads_after (front_in edges.now) uses.now self.old.head (length uses.now) }
        ensures next_after { self.new.next ≡ nexts_after (front_in edges.now) uses.now self.old.head self.old.next (length uses.now) }
    {
        for (i, u) in uses.iter().enumerate() {
            self.push(edges.front(*u), i);
        }
    }

    // The first vertex at or after `from` that has uses, if there is one: read from `head` alone, as a list is.
    pub(crate) fn lowest(&self, from: usize) -> Option<usize>
        requires { (from ≤ 4096) × ((w : ℕ) → w < from → get_or self.now.head w 0 ≤ 1) }
        ensures least { Lowest self.now.head (unwrap_or result 4096) }
        ensures in_table { IfSome result (λ v. v < 4096) }
    {
        (from..4096).find(|v| 1 < self.head[*v])
    }
}
