// How many lines a text has.
ghost use Rattle.std.specs.Prelude.{◌≡◌, count_by, ◌==◌};

// The lines that end with a line feed; a last one without it is one more.
pub fn line_feeds(text: &[u8]) -> usize
    ensures { result ≡ count_by (λ b. b == 10) text.now }
{
    text.iter().filter(|b| **b == b'\n').count()
}
