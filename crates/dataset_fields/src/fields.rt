// The fields of a DataSetMessage, one after the other.
// A type goes by its number: any byte may stand for one, on the wire and in the lists of types that are lent, and each is answered. An enum
// would have to be made of it at each field, and is no plainer.
ghost use Rattle.std.specs.Prelude.{◌≡◌, false, cond, true, ◌&&◌, List, ℕ, ◌-◌, ◌+◌, ◌≤◌, get_or, length, take, eqb, leb};
ghost use Rattle.wire.specs.Lists.{total};
ghost use Rattle.wire.specs.Refusal.{answer, answer_to, rule_number};
ghost use Rattle.plain_value.specs.Plain.{passing};
ghost use Rattle.dataset_fields.specs.Fields.{raw_field_at, encoded_at, index_at, field_at, fields_at, next_field_at, padding_at, answer_field_step, values_of, reached, fields_number, fields_bytes, zeros};
ghost use Rattle.dataset_header.specs.declared.flags.Encoding.{Encoding};
ghost use Rattle.dataset_header.specs.Flags.{is_raw};
ghost use Rattle.wire_writer.specs.Store.{Stored};
ghost use Rattle.wire_writer.specs.Writing.{Puts};

use crate::quick::{MANY, Run, leading};
use crate::values::{DataValues, RawData, Values, Variants};
use dataset_header::flags::{Encoding, is_raw};
use value::{Measured, Shape, measure_data_value, measure_raw, measure_variant};
use wire::item::Item;
use wire::part::part;
use wire::refusal::{Read, Reason, Refusal};
use wire::{has, left, skip};
use wire_writer::store::{Store, put_run};
use wire_writer::writing::agreement_rule;

// Where a field stands: its index (a delta's own), type number and shape, and its value's offset and length. Length and offset stand apart,
// since the two words side by side would be loaded as one right after they were stored, which stalls.
#[derive(Clone, Copy, PartialEq, Eq, Debug)]
pub struct Field {
    pub length: usize,
    pub index: usize,
    pub kind: u8,
    pub shape: Shape,
    pub offset: usize,
}

// A cursor over the fields: how they are encoded and whether each has an index of its own, which field is next of how many, and
// the byte where it starts.
#[derive(Clone, Copy, PartialEq, Eq, Debug)]
pub struct Cursor {
    pub encoding: Encoding,
    pub delta: bool,
    pub next: usize,
    pub count: usize,
    pub at: usize,
}

// The value of field k of RawData; past the configured fields 8, at 0.
pub(crate) fn configured(s: &[u8], types: &[u8], k: usize, at: usize) -> Read<Measured>
    ensures { answer result ≡ raw_field_at types.now k s.now at }
{
    if types.len() <= k {
        return Err(Reason::NotConfigured.at(0));
    }
    measure_raw(s, at, types[k])
}

// The value of field k.
fn encoded(s: &[u8], encoding: Encoding, types: &[u8], k: usize, at: usize) -> Read<Measured>
    ensures { answer result ≡ encoded_at encoding types.now k s.now at }
{
    match encoding {
        Encoding::Variant => measure_variant(s, at),
        Encoding::RawData => configured(s, types, k, at),
        Encoding::DataValue => measure_data_value(s, at),
    }
}

// The index of field k: a delta's own, else k.
pub(crate) fn index(s: &[u8], delta: bool, k: usize, at: usize) -> Read<usize>
    ensures { answer result ≡ index_at delta k s.now at }
{
    if !delta {
        return Ok((k, at));
    }
    let (v, next) = u16::read(s, at)?;
    Ok((v as usize, next))
}

// A field by its index, its value, and where this starts and ends.
pub(crate) fn located(index: usize, m: Measured, offset: usize, end: usize) -> Field
    ensures { result ≡ record { index = index; kind = m.kind; shape = m.shape; offset = offset; length = end - offset } }
{
    Field {
        index,
        kind: m.kind,
        shape: m.shape,
        offset,
        length: left(end, offset),
    }
}

// Field k, which starts at a position.
pub fn read_field(
    s: &[u8],
    encoding: Encoding,
    delta: bool,
    types: &[u8],
    k: usize,
    at: usize,
) -> Read<Field>
    ensures { answer result ≡ field_at delta encoding types.now k s.now at }
{
    let (index, offset) = index(s, delta, k, at)?;
    let (value, end) = encoded(s, encoding, types, k, offset)?;
    Ok((located(index, value, offset, end), end))
}

impl Cursor {
    // The field that the cursor stands before, and the cursor before the next one.
    pub fn step(self, s: &[u8], types: &[u8]) -> Result<(Field, Cursor), Refusal>
        ensures { answer_field_step result ≡ next_field_at self types.now s.now }
    {
        if s.len() < self.at {
            return Err(Reason::CutShort.at(self.at));
        }
        if self.count <= self.next {
            return Err(Reason::OverLimit.at(0));
        }
        let (field, end) = read_field(&*s, self.encoding, self.delta, &*types, self.next, self.at)?;
        let after = Cursor {
            next: self.next + 1,
            at: end,
            ..self
        };
        Ok((field, after))
    }
}

// The first count fields one after the other, each read as a field. It promises what `pass_fields` does, which has to keep its one caller.
pub fn pass_each(
    s: &[u8],
    encoding: Encoding,
    delta: bool,
    types: &[u8],
    count: usize,
    at: usize,
) -> Result<usize, Refusal>
    ensures { answer_to tt result ≡ fields_at delta encoding types.now count 0 s.now at }
{
    let mut p = at;
    for k in 0..count {
        let (_, end) = read_field(&*s, encoding, delta, &*types, k, p)?;
        p = end;
    }
    Ok(p)
}

// Passes over the index of a field, which a delta's fields have.
pub(crate) fn pass_index(s: &[u8], delta: bool, at: usize) -> Result<usize, Refusal>
    ensures { (k : ℕ) → answer_to tt result ≡ passing (index_at delta k) s.now at }
{
    if delta {
        return skip(s, at, 2);
    }
    Ok(at)
}

// The leading ones of so many Variants that are passed over by the first one's size: none of a delta, and of few.
fn start(s: &[u8], delta: bool, count: usize, at: usize) -> Run
    ensures { (types : List ℕ) → fields_at delta Encoding.Variant types count 0 s.now at
        ≡ fields_at delta Encoding.Variant types (count - result.count) result.count s.now result.end }
{
    if !delta & (MANY <= count) {
        return leading(&*s, at, count);
    }
    Run { count: 0, end: at }
}

// All fields from a cursor before the first, each encoding in a loop of its own. It has one caller, so that the loops are put in line
// there.
pub fn pass_fields(s: &[u8], c: Cursor, types: &[u8]) -> Result<usize, Refusal>
    ensures { answer_to tt result ≡ fields_at c.delta c.encoding types.now c.count 0 s.now c.at }
{
    match c.encoding {
        Encoding::Variant => {
            let run = start(s, c.delta, c.count, c.at);
            Variants::pass_from(s, c.delta, types, run.count, c.count, run.end)
        }
        Encoding::RawData => RawData::pass_from(s, c.delta, types, 0, c.count, c.at),
        Encoding::DataValue => DataValues::pass_from(s, c.delta, types, 0, c.count, c.at),
    }
}

// Only zero bytes may remain from a position on.
pub fn padding(s: &[u8], at: usize) -> Result<usize, Refusal>
    ensures { answer_to tt result ≡ padding_at s.now at }
{
    for p in at..s.len() {
        if s[p] != 0 {
            return Err(Reason::LeftOver.at(p));
        }
    }
    Ok(at + left(s.len(), at))
}

// Whether the lengths add up to a number of bytes.
pub fn add_up(lengths: &[usize], bytes: usize) -> bool
    ensures { result ≡ eqb (total lengths.now) bytes }
{
    let mut left = bytes;
    for n in lengths {
        if left < *n {
            return false;
        }
        left -= *n;
    }
    left == 0
}

// The position n bytes on, at most the slice's end.
fn forward(len: usize, at: usize, n: usize) -> usize
    ensures { result ≡ cond (leb (at + n) len) (at + n) len }
{
    at.saturating_add(n).min(len)
}

// How many of n fields reading reaches: in RawData no more than are configured.
fn reached_count(raw: bool, configured: usize, n: usize) -> usize
    ensures { result ≡ cond (raw && leb configured n) configured n }
{
    if raw {
        return n.min(configured);
    }
    n
}

// The first number by which one of the first count fields is refused alone; then 6 where bytes stand behind a field's value.
fn judge_first(
    values: &[u8],
    lengths: &[usize],
    encoding: Encoding,
    types: &[u8],
    count: usize,
) -> Result<(), Reason>
    requires { count ≤ length lengths.now }
    ensures { let fields = values_of lengths.now values.now in
        rule_number result ≡ fields_number encoding types.now 0 (take count fields) }
{
    let mut at = 0;
    let mut whole = true;
    for k in 0..count {
        let n = lengths[k];
        let value = part(values, at, n);
        let end = match read_field(value, encoding, false, types, k, 0) {
            Ok((_, end)) => end,
            Err(refusal) => return Err(refusal.reason),
        };
        whole = whole & (end == value.len());
        at = forward(values.len(), at, n);
    }
    agreement_rule(whole)
}

// The same of the fields that reading reaches.
pub fn judge_fields(
    values: &[u8],
    lengths: &[usize],
    encoding: Encoding,
    types: &[u8],
) -> Result<(), Reason>
    ensures { let fields = values_of lengths.now values.now in
        rule_number result ≡ fields_number encoding types.now 0 (reached (is_raw encoding) types.now fields) }
{
    let count = reached_count(is_raw(encoding), types.len(), lengths.len());
    judge_first(values, lengths, encoding, types, count)
}

// The index of field k, 0 where there is none.
fn index_of(indices: &[u16], k: usize) -> u16
    ensures { result ≡ get_or indices.now k 0 }
{
    indices.get(k).map_or(0, |index| *index)
}

// How many bytes the fields of a delta take: two for each index, and the values as far as there are any.
fn delta_size(values: &[u8], lengths: &[usize]) -> usize
    ensures { let fields = values_of lengths.now values.now in
        ((indices : List ℕ) → result ≡ length (fields_bytes true indices fields)) }
{
    let mut start = 0;
    for n in lengths {
        start = forward(values.len(), start, *n);
    }
    2 * lengths.len() + start
}

// The fields of a delta, each with its index, where there is room for them.
fn store_delta(
    out: &mut [u8],
    at: usize,
    values: &[u8],
    lengths: &[usize],
    indices: &[u16],
) -> usize
    ensures { let fields = values_of lengths.now values.now in
        Puts (fields_bytes true indices.now fields) out.old at out.new result }
{
    let mut p = at;
    let mut start = 0;
    for (k, n) in lengths.iter().enumerate() {
        p = index_of(indices, k).put(out, p);
        p = put_run(out, p, part(values, start, *n));
        start = forward(values.len(), start, *n);
    }
    p
}

// Stores the fields of a delta, each with its index, all or nothing: answers the position after them, or `at` where they do not fit.
pub fn put_delta(
    out: &mut [u8],
    at: usize,
    values: &[u8],
    lengths: &[usize],
    indices: &[u16],
) -> usize
    ensures { let fields = values_of lengths.now values.now in
        Stored (fields_bytes true indices.now fields) out.old at out.new result }
{
    if !has(out.len(), at, delta_size(values, lengths)) {
        return at;
    }
    store_delta(out, at, values, lengths, indices)
}

// Stores n zero bytes, all or nothing: answers the position after them, or `at` where they do not fit.
pub fn put_zeros(out: &mut [u8], at: usize, n: usize) -> usize
    ensures { Stored (zeros n) out.old at out.new result }
{
    if !has(out.len(), at, n) {
        return at;
    }
    let end = at + n;
    out[at..end].fill(0);
    end
}
