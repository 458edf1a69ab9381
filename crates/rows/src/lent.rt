// Wires, as a host lends them: their uses one after the other, their lengths, and how many wires they are said to be.
ghost use Rattle.std.specs.Prelude.{◌≡◌, ◌+◌, ◌*◌, ◌≤◌, ◌<◌, true, false, get_or, length, take, MatchOption};
ghost use Rattle.std.specs.Iterator.{YieldsFirstBy, item_count};
ghost use Rattle.compress.specs.Wires.{total, wires_of};
ghost use Rattle.rows.specs.Held.{all_uses, lie_in, wires_in};

use std::ops::Range;

// A stretch of a wire: the first `count` of the uses. Nothing is checked of it here.
#[derive(Clone, Copy)]
pub struct Stretch<'a> {
    pub uses: &'a [u32],
    pub count: usize,
}

// Wires, to be read. Nothing is checked of them here.
#[derive(Clone, Copy)]
pub struct Wires<'a> {
    pub uses: &'a [u32],
    pub lengths: &'a [u32],
    pub count: usize,
}

// Wires, to be written.
#[derive(Drop)]
pub struct WiresMut<'a> {
    pub uses: &'a mut [u32],
    pub lengths: &'a mut [u32],
    pub count: usize,
}

// The wires of the given lengths, one after the other. A wire of more uses than are left has those that are left.
#[derive(Drop)]
pub struct EachWire<'a> {
    pub uses: &'a [u32],
    pub lengths: &'a [u32],
}

// The sum of lengths. Of at most 64 none wraps.
fn sum_of(lengths: &[u32]) -> usize
    requires { length lengths.now ≤ 64 }
    ensures value { result ≡ total lengths.now }
    ensures bound { result ≤ length lengths.now * 4294967296 }
{
    lengths.iter().map(|n| *n as usize).sum()
}

impl<'a> Stretch<'a> {
    // The uses, where so many are lent.
    pub fn lent_uses(&self) -> Option<&'a [u32]>
        ensures { let s = self.now in
            MatchOption result (length s.uses.now < s.count)
            (λ u. (s.count ≤ length s.uses.now) × (u.now ≡ take s.count s.uses.now)) }
    {
        self.uses.get(..self.count)
    }
}

impl<'a> Wires<'a> {
    // The uses of all wires, where they are at most 64 and their lengths and uses are lent.
    pub fn lent_uses(&self) -> Option<&'a [u32]>
        ensures { MatchOption result (lie_in self.now ≡ false) (λ u. (lie_in self.now ≡ true) × (u.now ≡ all_uses self.now)) }
    {
        if self.count > 64 {
            return None;
        }
        let lengths = self.lengths.get(..self.count)?;
        self.uses.get(..sum_of(lengths))
    }

    // How many uses all wires have.
    pub fn total_uses(&self) -> usize
        requires { (self.now.count ≤ 64) × (self.now.count ≤ length self.now.lengths.now) }
        ensures { result ≡ total (take self.now.count self.now.lengths.now) }
    {
        sum_of(&self.lengths[..self.count])
    }

    // Where the uses of wire w stand.
    pub fn place(&self, w: usize) -> Range<usize>
        requires { (w < self.now.count) × (self.now.count ≤ 64) × (self.now.count ≤ length self.now.lengths.now) }
        ensures start { result.start ≡ total (take w self.now.lengths.now) }
        ensures end { result.end ≡ result.start + get_or self.now.lengths.now w 0 }
    {
        let start = sum_of(&self.lengths[..w]);
        start..start + self.lengths[w] as usize
    }

    // The wires one after the other, as many as are said to be, or as there are lengths.
    pub fn each(&self) -> EachWire<'a>
        ensures { wires_of result.uses.now result.lengths.now ≡ wires_in self.now }
    {
        EachWire {
            uses: self.uses,
            lengths: &self.lengths[..self.count.min(self.lengths.len())],
        }
    }
}

impl WiresMut<'_> {
    // The wires as they are now, to be read.
    pub fn view(&self) -> Wires<'_>
        ensures uses_value { result.uses.now ≡ self.now.uses.now }
        ensures lengths_value { result.lengths.now ≡ self.now.lengths.now }
        ensures count_value { result.count ≡ self.now.count }
    {
        Wires {
            uses: self.uses,
            lengths: self.lengths,
            count: self.count,
        }
    }
}

impl<'a> Iterator for EachWire<'a> {
    type Item = &'a [u32];

    ghost next_gives = { YieldsFirstBy (λ w. w.now) (λ s. wires_of s.uses.now s.lengths.now) };

    ghost remaining = { item_count (λ s. wires_of s.uses.now s.lengths.now) };

    fn next(&mut self) -> Option<&'a [u32]> {
        let (&size, lengths) = self.lengths.split_first()?;
        let (wire, uses) = self.uses.split_at(self.uses.len().min(size as usize));
        self.lengths = lengths;
        self.uses = uses;
        Some(wire)
    }
}
