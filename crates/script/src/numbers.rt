// Decimal numbers of any length.
ghost use Rattle.std.specs.Prelude.{◌≡◌, ◌+◌, ◌-◌, ◌*◌, ◌^◌};
ghost use Rattle.script.specs.Decimal.{is_number, number_of, below};
ghost use Rattle.script.specs.Sizes.{sized};

// Why bytes are not read as a number.
#[derive(Clone, Copy, PartialEq, Eq, Debug)]
pub enum NumberError {
    NotDigits,
    TooLarge,
}

// The number that the bytes write, if they are digits and nothing else, and 64 bits hold it. Not `u64::from_str`: that takes a `+`,
// too, and asks for text that is known to be UTF-8.
pub fn read_number(word: &[u8]) -> Result<u64, NumberError>
    ensures { result ≡ sized (number_of word.now) }
{
    if !is_number(word) {
        return Err(NumberError::NotDigits);
    }
    word.iter()
        .try_fold(0, followed_by)
        .ok_or(NumberError::TooLarge)
}

// At least one digit, and nothing else.
fn is_number(word: &[u8]) -> bool
    ensures { result ≡ is_number word.now }
{
    !word.is_empty() && word.iter().all(u8::is_ascii_digit)
}

// The number with one more digit behind it.
fn followed_by(n: u64, digit: &u8) -> Option<u64>
    ensures { result ≡ below (2 ^ 64) (n * 10 + (digit.now - 48)) }
{
    n.checked_mul(10)?
        .checked_add(u64::from(digit.saturating_sub(b'0')))
}
