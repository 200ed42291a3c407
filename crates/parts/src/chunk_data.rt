// A chunk's answer with its data: that part of the lent datagram.
ghost use Rattle.std.specs.Prelude.{◌≡◌};
ghost use Rattle.chunk.specs.Datagram.{chunk_at, chunk_data};
ghost use Rattle.parts.specs.Part.{located, part_lent, part_at, chunk_located};

use crate::part::Span;
use chunk::datagram::read;
use wire::refusal::Refusal;

// Where the data of a datagram's chunk stands.
pub fn locate(s: &[u8], sizes: &[u16]) -> Result<Span, Refusal>
    ensures { located result ≡ chunk_located (chunk_at sizes.now s.now) }
{
    let (c, _) = read(s, sizes)?;
    Ok(Span {
        offset: c.payload.first,
        length: c.payload.length,
    })
}

// The data of a datagram's chunk, under the sizes of the configured writers.
pub fn lent_part<'a>(s: &'a [u8], sizes: &[u16]) -> Result<&'a [u8], Refusal>
    ensures { let a = chunk_at sizes.now s.now in
        part_lent result ≡ part_at (chunk_located a) (chunk_data a s.now) }
{
    Ok(locate(s, sizes)?.of(s))
}
