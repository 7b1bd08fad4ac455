// A reader that walks a lent reel from its first line without copying it.
// `new`, `next`, `moved` and `line` are thin over a slice and a number; `after` and `wire::read_line` do the work.
#![tactic(auto)]

ghost use Rattle.std.specs.Prelude.{◌≡◌};
ghost use Rattle.wire.specs.Line.{line_at};
ghost use Rattle.wire.specs.Numbers.{reading_of, read_line_of};
ghost use Rattle.reel.specs.Walk.{after_of};

use wire::Line;

#[derive(Clone, Copy)]
pub struct Reader<'a> {
    pub reel: &'a [u8],
    pub at: usize,
}

// Where the line behind a place starts: past a frame line; at the reel's end and on a bad line the place stays.
#[tactic(auto, unfolding(crate::specs::Walk::after_of))]
pub fn after(reel: &[u8], at: usize) -> usize
    ensures { result ≡ after_of reel.now at }
{
    match wire::read_line(reel, at) {
        Line::Pair(_, _) => at + 5,
        Line::End | Line::Bad => at,
    }
}

// What a reader at a place of a reel gives, for callers that keep the place and hold no reader.
pub fn line(reel: &[u8], at: usize) -> Line
    ensures { result ≡ line_at reel.now at }
{
    Reader { reel, at }.next()
}

impl<'a> Reader<'a> {
    // A reader stands at the first line.
    pub fn new(reel: &'a [u8]) -> Reader<'a>
        ensures { (result.reel ≡ reel.entry) × (result.at ≡ 0) }
    {
        Reader { reel, at: 0 }
    }

    // What stands where the reader is: a pair, the reel's end, or what is no frame line.
    pub fn next(self) -> Line
        ensures { (result ≡ line_at self.entry.reel.now self.entry.at) × (reading_of result ≡ read_line_of self.entry.reel.now self.entry.at) }
    {
        wire::read_line(self.reel, self.at)
    }

    // The reader behind what stands where it is: past a pair; at the end and on a bad line it stays.
    pub fn moved(self) -> Reader<'a>
        ensures { (result.reel ≡ self.entry.reel) × (result.at ≡ after_of self.entry.reel.now self.entry.at) }
    {
        let at = after(self.reel, self.at);
        Reader { at, ..self }
    }
}
