// A message's answer with its bytes: that part of the lent datagram.
ghost use Rattle.std.specs.Prelude.{◌≡◌};
ghost use Rattle.network_message.specs.Envelope.{message_place_at, message_bytes};
ghost use Rattle.parts.specs.Part.{located, part_lent, part_at, message_located};

use crate::part::Span;
use network_message::envelope::message_place;
use wire::refusal::Refusal;

// Where message k of a datagram stands.
pub fn locate(s: &[u8], sizes: &[u16], k: usize) -> Result<Span, Refusal>
    ensures { located result ≡ message_located (message_place_at sizes.now k s.now) }
{
    let (m, _) = message_place(s, sizes, k)?;
    Ok(Span {
        offset: m.offset,
        length: m.length,
    })
}

// Message k of a datagram, under the sizes of the configured writers.
pub fn lent_part<'a>(s: &'a [u8], sizes: &[u16], k: usize) -> Result<&'a [u8], Refusal>
    ensures { let a = message_place_at sizes.now k s.now in
        part_lent result ≡ part_at (message_located a) (message_bytes a s.now) }
{
    Ok(locate(s, sizes, k)?.of(s))
}
