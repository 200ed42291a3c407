// Where a byte stands, how a text goes on at a position, and texts put as they are.
ghost use Rattle.std.specs.Prelude.{◌≡◌, drop};
ghost use Rattle.wire_writer.specs.Store.{Stored};
ghost use Rattle.text.specs.Words.{index_of, starts_with};

use wire::part::tail;

// The place of the first byte `b`, or the length where there is none.
pub fn find(s: &[u8], b: u8) -> usize
    ensures { result ≡ index_of b s.now }
{
    s.iter().position(|x| *x == b).unwrap_or(s.len())
}

// Does the text go on with the word at the position?
#[tactic(auto, using(crate::proofs::Lists::starts_with_is))]
pub fn starts_with(s: &[u8], at: usize, word: &[u8]) -> bool
    ensures { result ≡ starts_with (drop at s.now) word.now }
{
    tail(s, at).starts_with(word)
}

// A text, put as it is.
pub fn put_bytes(out: &mut [u8], at: usize, text: &[u8]) -> usize
    ensures { Stored text.now out.old at out.new result }
{
    wire_writer::store::put_run(out, at, text)
}
