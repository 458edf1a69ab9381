// The answer of a call as the list has it, and its comparison.
ghost use Rattle.std.specs.Prelude.{◌≡◌, Ok};
ghost use Rattle.compress.specs.Refusals.{refusal_number};
ghost use Rattle.stored.specs.Compared.{Compares};
ghost use Rattle.stored.specs.stored_records.Answers.{IsAnswer, IsAnswerOrNone, IsBare, counts_told};

use crate::stored_cells::Cell;
use crate::{Damaged, Reader};
use compress::{Counts, Refusal};

// The answer "none" of a call.
const NONE: u64 = u64::MAX;

// 0 with what the call told, or "none" or the number of the refusal with zeros. No enum: these are the words of the stored list, which has
// zeros for what a call has not told.
#[derive(Clone, Copy)]
pub struct Answer<T, const N: usize> {
    pub number: u64,
    pub told: [T; N],
}

impl<T: Cell, const N: usize> Answer<T, N> {
    // The answer with no values.
    fn with_none(number: u64) -> Answer<T, N>
        ensures { IsBare T.is_default N number result }
    {
        Answer {
            number,
            told: Default::default(),
        }
    }

    // The answer of a call that is refused.
    fn refused(r: Refusal) -> Answer<T, N>
        ensures { IsBare T.is_default N (refusal_number r) result }
    {
        Answer::with_none(u64::from(u32::from(r)))
    }

    // Compares an answer with the list.
    pub fn compare(&self, list: &mut Reader<'_>) -> Result<(), Damaged>
        ensures compares { Compares list.old list.new }
    {
        list.compare(self.number)?;
        for told in &self.told {
            told.compare(list)?;
        }
        Ok(())
    }
}

// The answer of a call that tells something or is refused.
impl<T: Cell, const N: usize> From<Result<[T; N], Refusal>> for Answer<T, N> {
    ghost from_gives = { λ r a. IsAnswer T.is_default N r a };

    fn from(answer: Result<[T; N], Refusal>) -> Answer<T, N> {
        Answer::from(answer.map(Some))
    }
}

// The answer of a call that can also say "none".
impl<T: Cell, const N: usize> From<Result<Option<[T; N]>, Refusal>> for Answer<T, N> {
    ghost from_gives = { λ r a. IsAnswerOrNone T.is_default N r a };

    fn from(answer: Result<Option<[T; N]>, Refusal>) -> Answer<T, N> {
        match answer {
            Ok(Some(told)) => Answer { number: 0, told },
            Ok(None) => Answer::with_none(NONE),
            Err(r) => Answer::refused(r),
        }
    }
}

// The answer of a call that tells three counts.
impl From<Result<Counts, Refusal>> for Answer<usize, 3> {
    ghost from_gives = { λ r a. IsAnswer (λ n. n ≡ 0) 3 (counts_told r) a };

    fn from(answer: Result<Counts, Refusal>) -> Answer<usize, 3> {
        // The closure says what it gives: of one that makes an array nothing is inferred.
        Answer::from(answer.map(
            |n| -> [usize; 3]
                ensures { Ok result ≡ counts_told (Ok n) }
            { [n.vertices, n.edges, n.uses] },
        ))
    }
}
