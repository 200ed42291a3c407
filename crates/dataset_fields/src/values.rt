// The values of each encoding: measured, and passed over; and so its fields.
ghost use Rattle.std.specs.Prelude.{◌≡◌, ◌-◌};
ghost use Rattle.wire.specs.Refusal.{answer, answer_to};
ghost use Rattle.plain_value.specs.Plain.{passing};
ghost use Rattle.dataset_fields.specs.Fields.{encoded_at, field_at, fields_at};
ghost use Rattle.dataset_header.specs.declared.flags.Encoding.{Encoding};

use crate::fields::{Field, configured, index, located, pass_index};
use value::quick::{data_value_in_line, variant_in_line};
use value::{Measured, pass_data_value, pass_element, pass_variant};
use wire::refusal::{Read, Reason, Refusal};

// The values of an encoding.
pub trait Values {
    // the encoding
    ghost ENCODING: { Encoding };

    // The value of field k, told in line, with no call for a value that holds no other.
    fn measure(s: &[u8], types: &[u8], k: usize, at: usize) -> Read<Measured>
        ensures { answer result ≡ encoded_at ENCODING types.now k s.now at };

    // Passes over the value of field k.
    fn pass(s: &[u8], types: &[u8], k: usize, at: usize) -> Result<usize, Refusal>
        ensures { answer_to tt result ≡ passing (encoded_at ENCODING types.now k) s.now at };

    // Field k, its index and its value told in line. At each encoding it has one caller, a loop of the walk, so that it goes in line there.
    // It answers what `read_field` does. Worth: half of the time of a walk over UInt32, two thirds of that over Strings, DataValues and a
    // delta.
    final fn field(s: &[u8], delta: bool, types: &[u8], k: usize, at: usize) -> Read<Field>
        ensures { answer result ≡ field_at delta ENCODING types.now k s.now at }
    {
        let (index, offset) = index(s, delta, k, at)?;
        let (value, end) = Self::measure(s, types, k, offset)?;
        Ok((located(index, value, offset, end), end))
    }

    // Passes over field k.
    final fn pass_field(
        s: &[u8],
        delta: bool,
        types: &[u8],
        k: usize,
        at: usize,
    ) -> Result<usize, Refusal>
        ensures { answer_to tt result ≡ passing (field_at delta ENCODING types.now k) s.now at }
    {
        let offset = pass_index(s, delta, at)?;
        Self::pass(s, types, k, offset)
    }

    // Passes over the fields from field `first` on, which starts at a position, as many as there are up to `count`.
    final fn pass_from(
        s: &[u8],
        delta: bool,
        types: &[u8],
        first: usize,
        count: usize,
        at: usize,
    ) -> Result<usize, Refusal>
        ensures { answer_to tt result ≡ fields_at delta ENCODING types.now (count - first) first s.now at }
    {
        let mut p = at;
        for k in first..count {
            p = Self::pass_field(s, delta, types, k, p)?;
        }
        Ok(p)
    }
}

// Variants.
pub struct Variants {}

impl Values for Variants {
    ghost ENCODING = { Encoding.Variant };

    fn measure(s: &[u8], _types: &[u8], _k: usize, at: usize) -> Read<Measured> {
        variant_in_line(s, at)
    }

    fn pass(s: &[u8], _types: &[u8], _k: usize, at: usize) -> Result<usize, Refusal> {
        pass_variant(s, at)
    }
}

// The configured fields of RawData.
pub struct RawData {}

impl Values for RawData {
    ghost ENCODING = { Encoding.RawData };

    fn measure(s: &[u8], types: &[u8], k: usize, at: usize) -> Read<Measured> {
        configured(s, types, k, at)
    }

    fn pass(s: &[u8], types: &[u8], k: usize, at: usize) -> Result<usize, Refusal> {
        if k < types.len() {
            return pass_element(s, at, types[k]);
        }
        Err(Reason::NotConfigured.at(0))
    }
}

// DataValues.
pub struct DataValues {}

impl Values for DataValues {
    ghost ENCODING = { Encoding.DataValue };

    fn measure(s: &[u8], _types: &[u8], _k: usize, at: usize) -> Read<Measured> {
        data_value_in_line(s, at)
    }

    fn pass(s: &[u8], _types: &[u8], _k: usize, at: usize) -> Result<usize, Refusal> {
        pass_data_value(s, at)
    }
}
