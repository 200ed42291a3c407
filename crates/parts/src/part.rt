// What is answered with a part of a lent slice.
ghost use Rattle.std.specs.Prelude.{◌≡◌, take, drop};

use wire::part::part;

// Where bytes stand in a lent slice.
#[derive(Clone, Copy, PartialEq, Eq, Debug)]
pub struct Span {
    pub offset: usize,
    pub length: usize,
}

impl Span {
    // The bytes of a slice that stand there.
    pub fn of(self, s: &[u8]) -> &[u8]
        ensures { result.now ≡ take self.length (drop self.offset s.now) }
    {
        part(s, self.offset, self.length)
    }
}
