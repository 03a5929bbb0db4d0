// The command reader: lines of lent input, and how far it has come.
#![tactic(auto)]

ghost use Rattle.std.specs.Prelude.{◌≡◌};
ghost use Rattle.program_lines.specs.Ends.{first_from, span_at};

// The place of the first byte b at `at` or after it, or the slice's length where there is none; `at` where
// that is past the end.
pub fn find_byte(s: &[u8], b: u8, at: usize) -> usize
    ensures { result ≡ first_from b s.now at }
{
    byte_search::first(s, at, |x| x == b)
}

// Where the line at a position of the bytes ends, if a line feed ends it.
#[tactic(auto, using(crate::specs::theory::Ends::line_span, crate::specs::theory::Ends::rest_span))]
fn line_end(s: &[u8], at: usize) -> Option<usize>
    ensures { result ≡ span_at s.now at }
{
    let e = find_byte(s, b'\n', at);
    (e < s.len()).then_some(e)
}

// The command reader: the lent input, and how far it has come; by a place, since places are what it answers.
#[derive(Clone, Copy)]
pub struct Lines<'a> {
    pub src: &'a [u8],
    pub at: usize,
}

impl<'a> Lines<'a> {
    // A reader at a place of the input.
    pub fn new(src: &'a [u8], at: usize) -> Lines<'a>
        ensures { (result.src ≡ src.entry) × (result.at ≡ at) }
    {
        Lines { src, at }
    }

    // Where the line ends that begins where the reader has come, if a line feed ends it.
    pub fn next_line(&self) -> Option<usize>
        ensures { result ≡ span_at self.now.src.now self.now.at }
    {
        line_end(self.src, self.at)
    }

    // The reader, moved on to a place that is known: the line feed is not searched again.
    pub fn moved(self, at: usize) -> Lines<'a>
        ensures { (result.src ≡ self.entry.src) × (result.at ≡ at) }
    {
        Lines { src: self.src, at }
    }
}
