// Numbers, floats and buffers of them: read from the list, and compared with what stands there.

ghost use Rattle.std.specs.Prelude.{◌≡◌, ◌++◌, ◌∷◌, [], ◌+◌, ◌≤◌, ◌<◌, ℕ, Bool, eqb, length, OnOk, ⊤};
ghost use Rattle.stored.specs.Compared.{Compares, Keeps, Tested};
ghost use Rattle.stored.specs.stored_cells.Floats.{has_pattern};

use crate::{Damaged, MOST, Reader};
use std::alloc::AllocError;
use std::num::f64_from_bits_with_nan;

// What a cell of a buffer holds: it stands in one word of the list.
pub trait Cell: Copy + Default {
    // Is this the word of the value?
    ghost has_word: { Self → ℕ → Bool };

    // Reads a value.
    fn next(list: &mut Reader<'_>) -> Result<Self, Damaged>
        ensures keeps { Keeps list.old list.new };

    // Reads a word and compares the value with the one that it stands for.
    fn compare(self, list: &mut Reader<'_>) -> Result<(), Damaged>
        ensures compares { Compares list.old list.new }
        ensures tested { OnOk result (Tested (has_word self) list.old list.new) };
}

// A buffer of a call: the first `count` cells. What lies behind them is of a record before.
pub struct Buffer<T> {
    pub cells: [T; MOST],
    pub count: usize,
    pub ghost bound: { count ≤ 512 },
}

// ---- floats

// Has x this bit pattern? A NaN has that of any NaN.
fn has_pattern(x: f64, bits: u64) -> bool
    ensures { result ≡ has_pattern x bits }
{
    if x.is_nan() {
        return f64_from_bits_with_nan(bits).is_nan();
    }
    x.to_bits() == bits
}

impl Cell for f64 {
    ghost has_word = { has_pattern };

    fn next(list: &mut Reader<'_>) -> Result<f64, Damaged> {
        Ok(f64_from_bits_with_nan(list.next()?))
    }

    fn compare(self, list: &mut Reader<'_>) -> Result<(), Damaged> {
        let bits = list.next()?;
        list.same_if(has_pattern(self, bits));
        Ok(())
    }
}

// ---- numbers

impl Cell for u32 {
    ghost has_word = { λ n w. eqb w n };

    // A word above those of 32 bits is no number.
    fn next(list: &mut Reader<'_>) -> Result<u32, Damaged> {
        let word = list.next()?;
        u32::try_from(word).map_err(|_| Damaged)
    }

    fn compare(self, list: &mut Reader<'_>) -> Result<(), Damaged> {
        list.compare(u64::from(self))
    }
}

impl Cell for usize {
    ghost has_word = { λ n w. eqb w n };

    fn next(list: &mut Reader<'_>) -> Result<usize, Damaged> {
        let word = list.next()?;
        Ok(word as usize)
    }

    fn compare(self, list: &mut Reader<'_>) -> Result<(), Damaged> {
        list.compare(self as u64)
    }
}

// ---- buffers

// By hand: beside a ghost field none is derived for a type with a parameter.
impl<T: Copy> Clone for Buffer<T> {
    ghost is_clone = { λ b c. c ≡ b };

    ghost is_infallible = { λ _. ⊤ };

    fn clone(&self) -> Result<Buffer<T>, AllocError> {
        Ok(*self)
    }
}

impl<T: Copy> Copy for Buffer<T> {}

// The buffer with no cells.
impl<T: Cell> Default for Buffer<T> {
    ghost is_default = { λ b. b.count ≡ 0 };

    fn default() -> Buffer<T> {
        Buffer {
            cells: Default::default(),
            count: 0,
        }
    }
}

impl<T: Cell> Buffer<T> {
    ghost use Rattle.std.specs.Borrow.{sem};
    ghost use Rattle.stored.specs.stored_cells.Buffers.{cells_of};
    ghost use Rattle.stored.specs.stored_cells.Lent.{lends_cells};

    // One more cell.
    fn push(&mut self, cell: T)
        requires { self.old.count < 512 }
        ensures cells_value { cells_of self.new ≡ cells_of self.old ++ cell ∷ [] }
        ensures count_value { self.new.count ≡ self.old.count + 1 }
    {
        self.cells[self.count] = cell;
        self.count += 1;
    }

    // Reads so many cells, in place of those that were there.
    pub fn fill(&mut self, list: &mut Reader<'_>, count: usize) -> Result<(), Damaged>
        requires { count ≤ 512 }
        ensures count_value { OnOk result (self.new.count ≡ count) }
        ensures keeps { Keeps list.old list.new }
    {
        self.count = 0;
        for _ in 0..count {
            self.push(T::next(list)?);
        }
        Ok(())
    }

    // Reads a length and as many cells.
    pub fn read(&mut self, list: &mut Reader<'_>) -> Result<(), Damaged>
        ensures keeps { Keeps list.old list.new }
    {
        let count = list.next_length()?;
        self.fill(list, count)
    }

    // The cells.
    pub fn cells(&self) -> &[T]
        ensures value { result.now ≡ cells_of self.now }
        ensures bound { length result.now ≤ 512 }
    {
        &self.cells[..self.count]
    }

    // The cells, to be written.
    pub fn cells_mut(&mut self) -> &mut [T]
        ensures* writes_back { sem 𝓛 (lends_cells T.row self.entry result) }
        ensures value { result.now ≡ cells_of self.old }
        ensures bound { length result.now ≤ 512 }
    {
        let count = self.count;
        let cells = &mut self.cells;
        &mut cells[..count]
    }

    // Compares a buffer with the list.
    pub fn compare(&self, list: &mut Reader<'_>) -> Result<(), Damaged>
        ensures compares { Compares list.old list.new }
    {
        for cell in self.cells() {
            cell.compare(list)?;
        }
        Ok(())
    }
}
