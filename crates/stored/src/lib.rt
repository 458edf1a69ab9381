// The stored list of answers of the Rust library, read from standard input a word at a time and compared.
#![tactic(auto)]

pub mod stored_cells;
pub mod stored_records;

ghost use Rattle.std.specs.Prelude.{◌≡◌, true, ◌&&◌, ◌+◌, ◌*◌, ◌≤◌, eqb, length, IfOk, IfSome, OnOk};
ghost use Rattle.stored.specs.Compared.{Compares, Keeps, Moved, Tested, word_at, word_before};

// The descriptor of standard input. No reader of std stands in its place: at the end of the input `read_exact` answers an error and not what it read,
// `read` may stop short, and to fill the buffer by it is the loop that the kit's `read_full` is.
const STDIN_FILENO: i32 = 0;

// The most cells that a buffer of a call has.
const MOST: usize = 512;

// No record has as many words: the longest has 10 buffers with their lengths, 11 numbers, and 4 buffers as the call left them, in all 7,189.
const RECORD: usize = 7680;

// The list is damaged: it ends within a record, or has a word that cannot stand where it does.
#[derive(Clone, Copy)]
pub struct Damaged;

// A reader of the list: the buffer, where in it the next word stands, how many words are left there, and whether all that was
// compared in this record was the same.
// It has the whole buffer and a place, and no slice of what is left, since that moves to the front when more is read.
#[derive(Drop)]
pub struct Reader<'a> {
    pub buf: &'a mut [u8],
    pub at: usize,
    pub left: usize,
    // A flag, since it sums up all comparisons of a record: no value stands beside it.
    pub is_same: bool,
}

impl<'a> Reader<'a> {
    // The reader before anything is read.
    pub fn new(buf: &'a mut [u8]) -> Reader<'a>
        ensures start { (result.at ≡ 0) × (result.left ≡ 0) × (result.is_same ≡ true) }
        ensures buf_value { result.buf.now ≡ buf.old }
    {
        Reader {
            buf,
            at: 0,
            left: 0,
            is_same: true,
        }
    }

    // Reads on where the next record may not be whole in the buffer: the words that are left go to the front, and what the input has
    // next comes behind them, until the buffer is full or the input ends. Nothing of the next record is compared yet.
    pub fn refill(&mut self) -> Result<(), Damaged>
        ensures is_same_value { self.new.is_same ≡ true }
        ensures moved { OnOk result (Moved self.old.buf.now self.old.at (8 * self.old.left) self.new.buf.now self.new.at) }
    {
        self.is_same = true;
        if self.left >= RECORD {
            return Ok(());
        }
        let at = self.at;
        let kept = 8 * self.left;
        if at > self.buf.len() || kept > self.buf.len() - at {
            return Err(Damaged);
        }
        self.buf.copy_within(at..at + kept, 0);
        let got = io::read_full(STDIN_FILENO, &mut self.buf[kept..]);
        self.at = 0;
        self.left += got / 8;
        Ok(())
    }

    // The word that stands next in the buffer, if its eight bytes do.
    fn word(&self) -> Option<u64>
        ensures { IfSome result (λ w. (w ≡ word_at self.now.buf.now self.now.at) × (self.now.at + 8 ≤ length self.now.buf.now)) }
    {
        let bytes = self.buf.get(self.at..)?.first_chunk::<8>()?;
        Some(u64::from_le_bytes(*bytes))
    }

    // The next word. Past the end of the input there is none.
    pub fn next(&mut self) -> Result<u64, Damaged>
        ensures keeps { Keeps self.old self.new }
        ensures word { IfOk result (λ w. w ≡ word_before self.new) }
    {
        if self.left == 0 {
            return Err(Damaged);
        }
        let word = self.word().ok_or(Damaged)?;
        self.at += 8;
        self.left -= 1;
        Ok(word)
    }

    // Reads the length of a buffer, which is the most at most.
    fn next_length(&mut self) -> Result<usize, Damaged>
        ensures bound { IfOk result (λ n. n ≤ 512) }
        ensures keeps { Keeps self.old self.new }
    {
        let n = self.next()?;
        if n > MOST as u64 {
            return Err(Damaged);
        }
        Ok(n as usize)
    }

    // What was compared differs unless a test holds.
    fn same_if(&mut self, test: bool)
        ensures value { self.new.is_same ≡ (self.old.is_same && test) }
        ensures at_value { self.new.at ≡ self.old.at }
        ensures left_value { self.new.left ≡ self.old.left }
        ensures compares { Compares self.old self.new }
    {
        self.is_same &= test;
    }

    // Reads a word and compares it.
    pub fn compare(&mut self, bits: u64) -> Result<(), Damaged>
        ensures compares { Compares self.old self.new }
        ensures tested { OnOk result (Tested (λ w. eqb w bits) self.old self.new) }
    {
        let word = self.next()?;
        self.same_if(word == bits);
        Ok(())
    }
}
