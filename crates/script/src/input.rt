// The lines of an input, one at a time, in a buffer of fixed size.
ghost use Rattle.std.specs.Prelude.{◌≡◌, ◌<◌, ◌≤◌, [], ◌∷◌, ◌++◌, length};
ghost use Rattle.script.specs.Counts.{Counted};

use crate::reader::LONGEST;
use arrayvec::ArrayVec;
use std::io;
use std::io::Read;

// One byte more than a line has at most: what is longer is cut off there, and still is too long.
const ROOM: usize = LONGEST + 1;

// Lines end with a line feed. A last one without it counts, and nothing after a last line feed does not.
#[derive(Drop)]
pub struct Lines<R> {
    input: R,
    held: ArrayVec<u8, ROOM>,
    count: u64,
}

impl<R: Read> Lines<R> {
    pub fn new(input: R) -> Lines<R>
        ensures { result.count ≡ 0 }
    {
        Lines {
            input,
            held: ArrayVec::new(),
            count: 0,
        }
    }

    // Goes to the next line, if there is one, and gives its number, from 1.
    pub fn advance(&mut self) -> io::Result<Option<u64>>
        ensures { Counted self.old.count result self.new.count }
    {
        self.held.clear();
        let mut began = false;
        // Not by `bytes`, which reads again where a read was interrupted: each error is given. Counted, since without a count
        // a loop until the input ends needs a `Wait` bound, and no function here may have one.
        for _ in 0..u64::MAX {
            let mut byte = [0];
            if self.input.read(&mut byte)? == 0 {
                break;
            }
            began = true;
            match byte {
                [b'\n'] => break,
                [b] => push(&mut self.held, b),
            }
        }
        if !began {
            return Ok(None);
        }
        self.count = self.count.saturating_add(1);
        Ok(Some(self.count))
    }

    // The line without its line feed, or its first 257 bytes.
    pub fn line(&self) -> &[u8]
        ensures bytes { result.now ≡ self.now.held.items }
        ensures within { length result.now ≤ 257 }
    {
        self.held.as_slice()
    }
}

// Adds a byte to what is held of a line. The 258th and what follows it have no room, and are left out.
fn push(held: &mut ArrayVec<u8, ROOM>, b: u8)
    ensures room { length held.old.items < 257 → held.new.items ≡ held.old.items ++ b ∷ [] }
    ensures full { 257 ≤ length held.old.items → held.new.items ≡ held.old.items }
{
    let _ = held.try_push(b);
}
