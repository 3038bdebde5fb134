// Which numbers of a line are in range.
ghost use Rattle.std.specs.Prelude.{◌≡◌, ◌<◌, ◌≤◌, MatchResult};
ghost use Rattle.simulator.specs.declared.refused.Refused.TheVariants.{OutOfRange};

use crate::refused::Refused;

pub const PROGRAMS: u32 = 32;

// Places of a space, pages of a device, words of a frame.
pub const PLACES: u32 = 1024;

pub const PAGES: u32 = 262_144;

pub const WORDS: u32 = 512;

pub fn below(n: u32, end: u32) -> Result<(), Refused>
    ensures { MatchResult result (λ _. n < end) (λ e. (e ≡ OutOfRange) × (end ≤ n)) }
{
    if n < end {
        Ok(())
    } else {
        Err(Refused::OutOfRange)
    }
}

// A word at a place of a program's space.
pub fn in_space(who: u32, v: u32, word: u32) -> Result<(), Refused>
    ensures { MatchResult result (λ _. (who < 32) × (v < 1024) × (word < 512)) (λ e. (e ≡ OutOfRange) × (who < 32 → v < 1024 → word < 512 → ⊥)) }
{
    below(who, PROGRAMS)?;
    below(v, PLACES)?;
    below(word, WORDS)
}
