// The words that the program is given.

ghost use Rattle.std.specs.Prelude.{◌≡◌, ◌≤◌, IfSome};
ghost use Rattle.pipe.specs.pipe_words.Steps.{eighths_of};

use std::env::FillError;
use std::rt::Env;

// The k that a word asks for: k=1 to k=7.
fn eighths_of(word: &[u8]) -> Option<u32>
    ensures exact { result ≡ eighths_of word.now }
    ensures within { IfSome result (λ k. (1 ≤ k) × (k ≤ 7)) }
{
    match word {
        [b'k', b'=', digit @ b'1'..=b'7'] => Some(u32::from(*digit) - 48),
        _ => None,
    }
}

// The k that the words of the program ask for, 4 without a word, and none where they are any others. A word has room for three bytes.
pub fn eighths_asked(env: &impl Env) -> Option<u32>
    ensures { IfSome result (λ k. (1 ≤ k) × (k ≤ 7)) }
{
    let mut word = [0; 3];
    match env.arg(1, &mut word) {
        Err(FillError::NotPresent) => Some(4),
        Err(FillError::TooLong) => None,
        Ok(n) => match env.arg(2, &mut [0; 1]) {
            Err(FillError::NotPresent) => eighths_of(&word[..n]),
            _ => None,
        },
    }
}
