// What came of a line, and its text.
ghost use Rattle.std.specs.Prelude.{◌≡◌, ◌+◌, ◌≤◌, ◌++◌, length, take, decimal, Some};
ghost use Rattle.script.specs.Texts.{text_of};
ghost use Rattle.arrayvec.specs.ArrayString.{array_string_len};

use arrayvec::ArrayString;
use itoa::Buffer;
use std::fmt;

#[derive(Clone, Copy, PartialEq, Eq, Debug)]
pub enum Outcome {
    // A call's answer: done, to be asked again later, or the number of the reason why not.
    Done,
    Later,
    No(u32),
    // A program's load or store: what it found, or that nothing is shown there, or a device's registers.
    Loaded(u64),
    Stored,
    Fault,
    Poked,
    // An access of a device: what it read, that it wrote, or that it missed.
    Took(u64),
    Put,
    Miss,
    // Whether the IOMMU found a mapping to keep.
    Kept,
    Nothing,
    // Nothing has come of it yet; it is never printed. No Option around the whole, since this has a text, too.
    NotYet,
    // The machine has come to its end.
    Over,
    // The line of this number is none.
    BadLine(u64),
}

impl Outcome {
    // Writes the text at the front of the buffer, and gives its length. Not `Display`: see `text`.
    pub fn write(self, out: &mut [u8; 32]) -> usize
        ensures within { result ≤ 32 }
        ensures text { take result out.new ≡ text_of self }
    {
        let text = self.text();
        out[..text.len()].copy_from_slice(text.as_bytes());
        text.len()
    }

    // The text itself, of at most 32 bytes. Programs print this: `Display` says what is written only where `fmt` succeeds.
    pub fn text(self) -> ArrayString<32>
        ensures { result.bytes ≡ text_of self }
    {
        let mut text = ArrayString::new();
        match self {
            Outcome::Done => text.push_str("done"),
            Outcome::Later => text.push_str("later"),
            Outcome::No(n) => push_numbered(&mut text, "no ", u64::from(n)),
            Outcome::Loaded(x) => push_numbered(&mut text, "load ", x),
            Outcome::Stored => text.push_str("stored"),
            Outcome::Fault => text.push_str("fault"),
            Outcome::Poked => text.push_str("poked"),
            Outcome::Took(x) => push_numbered(&mut text, "took ", x),
            Outcome::Put => text.push_str("put"),
            Outcome::Miss => text.push_str("miss"),
            Outcome::Kept => text.push_str("kept"),
            Outcome::Nothing => text.push_str("nothing"),
            Outcome::NotYet => text.push_str("not yet"),
            Outcome::Over => text.push_str("over"),
            Outcome::BadLine(k) => {
                push_numbered(&mut text, "line ", k);
                text.push_str("?");
            }
        }
        text
    }
}

impl fmt::Display for Outcome {
    ghost output = { λ outcome. Some (text_of outcome) };

    fn fmt<W: fmt::Write>(&self, f: &mut fmt::Formatter<W>) -> fmt::Result {
        f.write_str(self.text().as_str())
    }
}

// Appends a text, and a number of at most 20 digits.
fn push_numbered(text: &mut ArrayString<32>, before: &str, n: u64)
    requires { array_string_len text.old + length before.now ≤ 12 }
    ensures bytes { text.new.bytes ≡ text.old.bytes ++ (before.now ++ decimal n) }
    ensures room { array_string_len text.new ≤ array_string_len text.old + length before.now + 20 }
{
    text.push_str(before);
    text.push_str(Buffer::new().format(n));
}
