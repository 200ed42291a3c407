// The fields that are given to be written.
ghost use Rattle.std.specs.Prelude.{◌≡◌, drop, length};
ghost use Rattle.wire.specs.Lists.{total};
ghost use Rattle.wire.specs.Refusal.{rule_number};
ghost use Rattle.dataset_message.specs.Writer.{missing_refusal, left_refusal};

use dataset_fields::fields::{padding, put_delta};
use plain_value::width::width;
use wire::part::tail;
use wire::refusal::Reason;
use wire_writer::store::put_run;

// Encoded values one after the other, and how long each is: the lengths add up to the bytes.
#[derive(Clone, Copy)]
pub struct Fields<'a> {
    pub values: &'a [u8],
    pub lengths: &'a [usize],
    pub ghost whole: { total lengths.now ≡ length values.now },
}

// What reading refuses of the configured fields from field n on, in so many bytes of padding.
fn missing(types: &[u8], n: usize, padding: usize) -> Result<(), Reason>
    ensures { rule_number result ≡ missing_refusal (drop n types.now) padding }
{
    let rest = tail(types, n);
    let mut left = padding;
    for t in rest {
        let w = width(*t);
        if w == 0 {
            return Err(Reason::NotTaken);
        }
        if left < w {
            return Err(Reason::CutShort);
        }
        left -= w;
    }
    Ok(())
}

// 7 where one of the bytes from a position on is not 0.
fn left_over(values: &[u8], at: usize) -> Result<(), Reason>
    ensures { rule_number result ≡ left_refusal values.now at }
{
    match padding(values, at) {
        Ok(_) => Ok(()),
        Err(refusal) => Err(refusal.reason),
    }
}

impl<'a> Fields<'a> {
    ghost use Rattle.std.specs.Prelude.{◌≤◌, take};
    ghost use Rattle.wire_writer.specs.Writing.{Puts};
    ghost use Rattle.dataset_fields.specs.Fields.{values_of, fields_bytes};
    ghost use Rattle.dataset_message.specs.Writer.{raw_refusal, layout_refusal};

    // Where the first count fields end.
    fn end_of(self, count: usize) -> usize
        requires { count ≤ length self.lengths.now }
        ensures { result ≡ total (take count self.entry.lengths.now) }
    {
        let first = &self.lengths[..count];
        let mut at = 0;
        for n in first {
            at += *n;
        }
        at
    }

    // What reading refuses after the header of RawData, where each field given is whole: 8 where nothing is configured, what it finds in
    // the padding for fields that are missing, 7 for bytes past the configured fields.
    fn raw_refusal(self, types: &[u8], padding: usize) -> Result<(), Reason>
        ensures { rule_number result ≡ raw_refusal types.now self.entry.values.now self.entry.lengths.now padding }
    {
        if (self.values.len() == 0) & (padding == 0) {
            return Ok(());
        }
        if types.len() == 0 {
            return Err(Reason::NotConfigured);
        }
        if self.lengths.len() <= types.len() {
            return missing(types, self.lengths.len(), padding);
        }
        left_over(self.values, self.end_of(types.len()))
    }

    // The same after any header.
    pub fn layout_refusal(
        self,
        fielded: bool,
        raw: bool,
        key: bool,
        types: &[u8],
        padding: usize,
    ) -> Result<(), Reason>
        ensures { rule_number result ≡ layout_refusal fielded raw key types.now self.entry.values.now self.entry.lengths.now padding }
    {
        if fielded {
            if raw {
                return self.raw_refusal(types, padding);
            }
            return Ok(());
        }
        if key {
            return Ok(());
        }
        left_over(self.values, 0)
    }

    // Stores them, a delta's with their indices.
    pub fn put(self, out: &mut [u8], at: usize, delta: bool, indices: &[u16]) -> usize
        ensures { let fields = values_of self.entry.lengths.now self.entry.values.now in
            Puts (fields_bytes delta indices.now fields) out.old at out.new result }
    {
        if delta {
            return put_delta(out, at, self.values, self.lengths, indices);
        }
        put_run(out, at, self.values)
    }
}
