// Values told apart, and put.
// Types, forms and encodings are numbers here, as the C interface has them.
ghost use Rattle.std.specs.Prelude.{◌≡◌};
ghost use Rattle.wire.specs.Answer.{map_answer};
ghost use Rattle.wire_writer.specs.Writing.{buffer_after};
ghost use Rattle.records.specs.Result.{result_in, filled_in};
ghost use Rattle.message_record.specs.Message.{encoding_in};
ghost use Rattle.value_parts.specs.Told.{told_element_at};
ghost use Rattle.value_parts.specs.DataValue.{alone_parts, answer_field_told, told_field_at};
ghost use Rattle.value_parts.specs.Put.{variant_output};
ghost use Rattle.value_parts.specs.PutName.{name_output};
ghost use Rattle.value_parts.specs.PutMatrix.{matrix_output};
ghost use Rattle.uadp_c.specs.Writing.{output_result};
ghost use Rattle.uadp_c.specs.Values.{value_filling, type_in, form_in};

use crate::refusals::{refused, refused_for};
use crate::rewrites::written_result;
use dataset_header::flags::Encoding;
use message_record::value_record::put_value;
use records::result::result;
use records::sizes::VALUE_SIZE;
use value_parts::data_value::{FieldParts, tell_field, tell_text};
use value_parts::matrix_put::put_matrix;
use value_parts::name::tell_name;
use value_parts::name_put::put_name;
use value_parts::put::{Form, put_variant};
use wire::refusal::{Reason, Refusal};

// The encoding of a number.
fn encoding_of(n: u32) -> Encoding
    ensures { result ≡ encoding_in n }
{
    match n {
        1 => Encoding::RawData,
        2 => Encoding::DataValue,
        _ => Encoding::Variant,
    }
}

// The type of a number; one that is no byte's is none.
fn type_of(n: u32) -> u8
    ensures { result ≡ type_in n }
{
    if 255 < n {
        return 0;
    }
    n as u8
}

// How a value of a shape is handed over.
fn form_of(shape: u32, null: u32) -> Form
    ensures { result ≡ form_in shape null }
{
    if shape == 1 {
        return Form::NullArray;
    }
    if shape == 2 {
        return Form::Array;
    }
    if null == 0 {
        return Form::Scalar;
    }
    Form::Null
}

// Stores what was told of a value that stands in the bytes.
fn fill_value(bytes: &[u8], value: &mut [u8], told: Result<FieldParts, Refusal>) -> u64
    ensures { let filling = value_filling bytes.now (answer_field_told told) in
        (result ≡ result_in filling value.old) × (value.new ≡ filled_in filling value.old) }
{
    match told {
        Err(refusal) => refused(refusal),
        Ok(f) => {
            if value.len() < VALUE_SIZE {
                return refused_for(Reason::NoRoom);
            }
            let name = tell_name(bytes, f.value);
            put_value(value, f, name);
            result(0, f.end)
        }
    }
}

// Tells a field's value apart, which stands at an offset of the bytes, by its message's encoding; in RawData it is an element of a type.
#[unsafe(no_mangle)]
pub extern "C" fn uadp_value(
    bytes: &[u8],
    offset: u64,
    encoding: u32,
    kind: u32,
    value: &mut [u8],
) -> u64
    ensures { let s = bytes.now in
        let told = value_filling s (told_field_at (encoding_in encoding) (type_in kind) s offset) in
        (result ≡ result_in told value.old) × (value.new ≡ filled_in told value.old) }
{
    fill_value(
        bytes,
        value,
        tell_field(bytes, offset as usize, encoding_of(encoding), type_of(kind)),
    )
}

// Tells element k of an array of Strings, ByteStrings or names apart, whose first element stands at an offset of the bytes.
#[unsafe(no_mangle)]
pub extern "C" fn uadp_element(
    bytes: &[u8],
    offset: u64,
    kind: u32,
    elements: u64,
    k: u64,
    value: &mut [u8],
) -> u64
    ensures { let s = bytes.now in
        let told = value_filling s (map_answer alone_parts (told_element_at (type_in kind) elements k s offset)) in
        (result ≡ result_in told value.old) × (value.new ≡ filled_in told value.old) }
{
    fill_value(
        bytes,
        value,
        tell_text(
            bytes,
            offset as usize,
            type_of(kind),
            elements as usize,
            k as usize,
        ),
    )
}

// Puts a value as a Variant at the buffer's start: the bytes of its elements, as they are to stand.
#[unsafe(no_mangle)]
pub extern "C" fn uadp_put_value(
    kind: u32,
    shape: u32,
    null: u32,
    bytes: &[u8],
    out: &mut [u8],
) -> u64
    ensures { let output = variant_output kind (form_in shape null) bytes.now in
        (result ≡ output_result out.old output) × (out.new ≡ buffer_after out.old output) }
{
    if 63 < kind {
        return refused_for(Reason::NotTaken);
    }
    written_result(put_variant(out, kind as u8, form_of(shape, null), bytes))
}

// Puts a QualifiedName or LocalizedText as a Variant at the buffer's start, from what `uadp_value` tells of one.
#[unsafe(no_mangle)]
pub extern "C" fn uadp_put_name(
    kind: u32,
    number: u32,
    locale: &[u8],
    text: &[u8],
    out: &mut [u8],
) -> u64
    ensures { let output = name_output kind number locale.now text.now in
        (result ≡ output_result out.old output) × (out.new ≡ buffer_after out.old output) }
{
    if 63 < kind {
        return refused_for(Reason::NotTaken);
    }
    written_result(put_name(out, kind as u8, number, locale, text))
}

// Puts an array with dimensions as a Variant at the buffer's start: the bytes of its elements and its dimensions, as they are to stand.
#[unsafe(no_mangle)]
pub extern "C" fn uadp_put_matrix(kind: u32, sizes: &[u8], bytes: &[u8], out: &mut [u8]) -> u64
    ensures { let output = matrix_output kind sizes.now bytes.now in
        (result ≡ output_result out.old output) × (out.new ≡ buffer_after out.old output) }
{
    if 63 < kind {
        return refused_for(Reason::NotTaken);
    }
    written_result(put_matrix(out, kind as u8, sizes, bytes))
}
