// The words of a line, one by one.
ghost use Rattle.std.specs.Prelude.{◌≡◌, ◌==◌};
ghost use Rattle.std.specs.Iterator.{YieldsFirstRef, item_count};
ghost use Rattle.std.specs.List.{position};
ghost use Rattle.script.specs.Parts.{first, later, last_of};
ghost use Rattle.script.specs.Spaces.{words_of};

use crate::fields::Field;
use std::marker::Model;

// A line from which words are taken, from the left. After the last word nothing is left, not even an empty rest.
// `slice::split` is no plainer here: each function that reads words would have to name its closure's type.
#[derive(Drop)]
pub struct Words<'a> {
    rest: Option<&'a [u8]>,
}

// The words that are left.
impl<'a> Model for Words<'a> {
    ghost use Rattle.std.specs.Prelude.{ℕ, List};
    ghost use Rattle.script.specs.Left.{left};

    ghost Value = { List (List ℕ) };

    ghost view = { λ w. left w.rest };
}

impl<'a> Words<'a> {
    pub fn new(line: &'a [u8]) -> Words<'a>
        ensures { result ≡ words_of line.now }
    {
        Words { rest: Some(line) }
    }

    // The next word, read as T.
    pub fn parse<T: Field>(&mut self) -> Option<T>
        ensures value { result ≡ first T.of_word self.old }
        ensures rest { self.new ≡ later self.old }
    {
        T::from_word(self.next()?)
    }

    // The same of a word that has to be the last.
    pub fn parse_last<T: Field + Drop>(&mut self) -> Option<T>
        ensures { result ≡ last_of T.of_word self.old }
    {
        let field = self.parse()?;
        self.next().is_none().then_some(field)
    }
}

impl<'a> Iterator for Words<'a> {
    type Item = &'a [u8];

    ghost next_gives = { YieldsFirstRef (λ ws. ws) };

    ghost remaining = { item_count (λ ws. ws) };

    fn next(&mut self) -> Option<&'a [u8]> {
        let rest = self.rest?;
        match first_space(rest) {
            Some(at) => {
                self.rest = Some(&rest[at + 1..]);
                Some(&rest[..at])
            }
            None => {
                self.rest = None;
                Some(rest)
            }
        }
    }
}

fn first_space(s: &[u8]) -> Option<usize>
    ensures { result ≡ position (λ c. c == 32) s.now }
{
    s.iter().position(|b| *b == b' ')
}
