// A field's answer with its encoded bytes: that part of the lent message.
ghost use Rattle.std.specs.Prelude.{◌≡◌};
ghost use Rattle.dataset_message.specs.Message.{field_place_at, field_bytes};
ghost use Rattle.parts.specs.Part.{located, part_lent, part_at, field_located};

use crate::part::Span;
use dataset_message::message::field_place;
use wire::refusal::Refusal;

// Where field k of a message stands.
pub fn locate(s: &[u8], types: &[u8], k: usize) -> Result<Span, Refusal>
    ensures { located result ≡ field_located (field_place_at types.now k s.now) }
{
    let (f, _) = field_place(s, types, k)?;
    Ok(Span {
        offset: f.offset,
        length: f.length,
    })
}

// Field k of a message.
pub fn lent_part<'a>(s: &'a [u8], types: &[u8], k: usize) -> Result<&'a [u8], Refusal>
    ensures { let a = field_place_at types.now k s.now in
        part_lent result ≡ part_at (field_located a) (field_bytes a s.now) }
{
    Ok(locate(s, types, k)?.of(s))
}
