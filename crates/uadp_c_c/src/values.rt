// Values told apart, and put.
// Types, forms and encodings are numbers here, as the C interface has them.
ghost use Rattle.std.specs.Prelude.{◌≡◌};
ghost use Rattle.wire.specs.Answer.{map_answer};
ghost use Rattle.wire_writer.specs.Writing.{buffer_after};
ghost use Rattle.records.specs.Result.{result_in, filled_in};
ghost use Rattle.message_record.specs.Message.{encoding_in};
ghost use Rattle.value_parts.specs.Told.{told_element_at};
ghost use Rattle.value_parts.specs.DataValue.{alone_parts, told_field_at};
ghost use Rattle.value_parts.specs.Put.{variant_output};
ghost use Rattle.value_parts.specs.PutName.{name_output};
ghost use Rattle.value_parts.specs.PutMatrix.{matrix_output};
ghost use Rattle.uadp_c.specs.Writing.{output_result};
ghost use Rattle.uadp_c.specs.Values.{value_filling, type_in, form_in};

// Tells a field's value apart, which stands at an offset of the bytes, by its message's encoding; in RawData it is an element of a type.
#[unsafe(no_mangle)]
pub extern "C" fn uadp_value(
    bytes: &[u8],
    offset: u64,
    encoding: u32,
    kind: u32,
    value: &mut [u8],
) -> u64
    ensures { let s = bytes.now in
        let told = value_filling s (told_field_at (encoding_in encoding) (type_in kind) s offset) in
        (result ≡ result_in told value.old) × (value.new ≡ filled_in told value.old) }
{
    uadp_c::values::uadp_value(bytes, offset, encoding, kind, value)
}

// Tells element k of an array of Strings, ByteStrings or names apart, whose first element stands at an offset of the bytes.
#[unsafe(no_mangle)]
pub extern "C" fn uadp_element(
    bytes: &[u8],
    offset: u64,
    kind: u32,
    elements: u64,
    k: u64,
    value: &mut [u8],
) -> u64
    ensures { let s = bytes.now in
        let told = value_filling s (map_answer alone_parts (told_element_at (type_in kind) elements k s offset)) in
        (result ≡ result_in told value.old) × (value.new ≡ filled_in told value.old) }
{
    uadp_c::values::uadp_element(bytes, offset, kind, elements, k, value)
}

// Puts a value as a Variant at the buffer's start: the bytes of its elements, as they are to stand.
#[unsafe(no_mangle)]
pub extern "C" fn uadp_put_value(
    kind: u32,
    shape: u32,
    null: u32,
    bytes: &[u8],
    out: &mut [u8],
) -> u64
    ensures { let output = variant_output kind (form_in shape null) bytes.now in
        (result ≡ output_result out.old output) × (out.new ≡ buffer_after out.old output) }
{
    uadp_c::values::uadp_put_value(kind, shape, null, bytes, out)
}

// Puts a QualifiedName or LocalizedText as a Variant at the buffer's start, from what `uadp_value` tells of one.
#[unsafe(no_mangle)]
pub extern "C" fn uadp_put_name(
    kind: u32,
    number: u32,
    locale: &[u8],
    text: &[u8],
    out: &mut [u8],
) -> u64
    ensures { let output = name_output kind number locale.now text.now in
        (result ≡ output_result out.old output) × (out.new ≡ buffer_after out.old output) }
{
    uadp_c::values::uadp_put_name(kind, number, locale, text, out)
}

// Puts an array with dimensions as a Variant at the buffer's start: the bytes of its elements and its dimensions, as they are to stand.
#[unsafe(no_mangle)]
pub extern "C" fn uadp_put_matrix(kind: u32, sizes: &[u8], bytes: &[u8], out: &mut [u8]) -> u64
    ensures { let output = matrix_output kind sizes.now bytes.now in
        (result ≡ output_result out.old output) × (out.new ≡ buffer_after out.old output) }
{
    uadp_c::values::uadp_put_matrix(kind, sizes, bytes, out)
}
