// What a word of a line is read as. A trait of this crate, not TryFrom: the types on both sides are the library's.
ghost use Rattle.std.specs.Prelude.{◌≡◌, ℕ, List, Option};
ghost use Rattle.script.specs.Decimal.{index_of, exact_of};
ghost use Rattle.script.specs.Parser.{mode_of};

use crate::numbers::{NumberError, read_number};

pub trait Field: Sized {
    ghost of_word: { List ℕ → Option Self };

    fn from_word(word: &[u8]) -> Option<Self>
        ensures { result ≡ of_word word.now };
}

// A number, or 2^32 - 1 where it is larger.
impl Field for u32 {
    ghost of_word = { index_of };

    fn from_word(word: &[u8]) -> Option<u32> {
        match read_number(word) {
            Ok(n) => Some(n.min(0xffff_ffff) as u32),
            Err(NumberError::TooLarge) => Some(0xffff_ffff),
            Err(NumberError::NotDigits) => None,
        }
    }
}

// A number below 2^64.
impl Field for u64 {
    ghost of_word = { exact_of };

    fn from_word(word: &[u8]) -> Option<u64> {
        read_number(word).ok()
    }
}

// Whether a page is lent to be written.
impl Field for bool {
    ghost of_word = { mode_of };

    fn from_word(word: &[u8]) -> Option<bool> {
        match word {
            b"w" => Some(true),
            b"r" => Some(false),
            _ => None,
        }
    }
}
