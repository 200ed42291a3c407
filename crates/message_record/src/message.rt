// The records of a message's head and of a field.
// The C interface has numbers for kinds, encodings and shapes: here they become the enums and go back. Any number has an answer.
ghost use Rattle.std.specs.Prelude.{◌≤◌, ◌≡◌, length};
ghost use Rattle.wire_writer.specs.Store.{laid};
ghost use Rattle.dataset_header.specs.Flags.{valid, not_valid, encoding_number, kind_number};
ghost use Rattle.dataset_message.specs.Message.{Message};
ghost use Rattle.records.specs.Sizes.{HEAD_SIZE};
ghost use Rattle.records.specs.Numbers.{number_bytes};
ghost use Rattle.records.specs.Items.{has_item, item_value, value_i64, given16, given32, given_i64};
ghost use Rattle.message_record.specs.Message.{encoding_in, items_number, head_numbers, cursor_in, cursor_laid, shape_number, elements_number, field_numbers, kind_in, header_in, head_fits, HeadBack};

use dataset_fields::fields::{Cursor, Field};
use dataset_header::flags::{Encoding, Kind};
use dataset_header::header::Header;
use records::items::{fits_item, flag_number, given, has, value};
use records::numbers::{number, put_numbers};
use value::{Shape, dimensions};
use wire_writer::store::Store;

// Where the numbers 12 and 14 stand: the cursor's next field and its place.
const CURSOR_NEXT: usize = 8 * 12;

const CURSOR_AT: usize = 8 * 14;

// The number of an encoding, as in Flags1.
pub fn encoding_number(e: Encoding) -> u64
    ensures { result ≡ encoding_number e }
{
    e as u64
}

pub(crate) fn encoding_in(n: u64) -> Encoding
    ensures { result ≡ encoding_in n }
{
    match n {
        1 => Encoding::RawData,
        2 => Encoding::DataValue,
        _ => Encoding::Variant,
    }
}

// The number of a kind, as in Flags2.
pub fn kind_number(k: Kind) -> u64
    ensures { result ≡ kind_number k }
{
    k as u64
}

fn items_number(h: Header) -> u64
    ensures { result ≡ items_number h }
{
    has(h.sequence)
        + 2 * has(h.timestamp)
        + 4 * has(h.picoseconds)
        + 8 * has(h.status)
        + 16 * has(h.major)
        + 32 * has(h.minor)
}

// Stores the head of a valid message: its header, the cursor before its first field, and where its last field ends. Where there is room
// they are read back.
pub fn put_head(out: &mut [u8], h: Header, cursor: Cursor, end: usize)
    ensures { let m : Message = record { header = h; cursor = cursor; end = end } in
        (out.new ≡ laid out.old 0 (number_bytes (head_numbers (valid m))))
        × (HEAD_SIZE ≤ length out.old → HeadBack out.new m) }
{
    let numbers = [
        1,
        encoding_number(h.encoding),
        kind_number(h.kind),
        items_number(h),
        value(h.sequence),
        value(h.timestamp),
        value(h.picoseconds),
        value(h.status),
        value(h.major),
        value(h.minor),
        encoding_number(cursor.encoding),
        flag_number(cursor.delta),
        cursor.next as u64,
        cursor.count as u64,
        cursor.at as u64,
        end as u64,
        0,
        0,
        0,
        0,
    ];
    put_numbers(out, &numbers);
}

// Stores the head of a message that is not valid.
pub fn put_no_head(out: &mut [u8])
    ensures { out.new ≡ laid out.old 0 (number_bytes (head_numbers not_valid)) }
{
    let numbers = [0u64; 20];
    put_numbers(out, &numbers);
}

// Stores the field cursor of a head record: the next field's number and where it starts.
pub fn put_cursor(out: &mut [u8], cursor: Cursor)
    ensures { out.new ≡ cursor_laid cursor out.old }
{
    (cursor.next as u64).put(out, CURSOR_NEXT);
    (cursor.at as u64).put(out, CURSOR_AT);
}

// The field cursor of a head record.
pub fn cursor_in(s: &[u8]) -> Cursor
    ensures { result ≡ cursor_in s.now }
{
    Cursor {
        encoding: encoding_in(number(s, 10)),
        delta: number(s, 11) != 0,
        next: number(s, 12) as usize,
        count: number(s, 13) as usize,
        at: number(s, 14) as usize,
    }
}

// A shape's number: 0 a scalar, 1 a null array, 2 an array, with dimensions or without.
pub fn shape_number(x: Shape) -> u64
    ensures { result ≡ shape_number x }
{
    match x {
        Shape::Scalar => 0,
        Shape::NullArray => 1,
        Shape::Array(_) | Shape::Matrix(_, _) => 2,
    }
}

// How many elements an array has, 0 where it is none.
pub fn elements_number(x: Shape) -> u64
    ensures { result ≡ elements_number x }
{
    match x {
        Shape::Scalar | Shape::NullArray => 0,
        Shape::Array(n) | Shape::Matrix(n, _) => n as u64,
    }
}

// A field's record, put at the buffer's start.
pub fn put_field(out: &mut [u8], f: Field)
    ensures { out.new ≡ laid out.old 0 (number_bytes (field_numbers f)) }
{
    let numbers = [
        f.kind as u64,
        shape_number(f.shape),
        elements_number(f.shape),
        f.index as u64,
        f.offset as u64,
        f.length as u64,
        dimensions(f.shape) as u64,
        0,
    ];
    put_numbers(out, &numbers);
}

fn kind_in(n: u64) -> Kind
    ensures { result ≡ kind_in n }
{
    match n {
        1 => Kind::Delta,
        2 => Kind::Event,
        3 => Kind::KeepAlive,
        _ => Kind::Key,
    }
}

// The header of a head record; a number that does not fit its item counts as the largest that does.
pub fn header_in(s: &[u8]) -> Header
    ensures { result ≡ header_in s.now }
{
    let items = number(s, 3);
    Header {
        encoding: encoding_in(number(s, 1)),
        kind: kind_in(number(s, 2)),
        sequence: given(items % 2 == 1, number(s, 4)),
        timestamp: given((items >> 1) % 2 == 1, number(s, 5)),
        picoseconds: given((items >> 2) % 2 == 1, number(s, 6)),
        status: given((items >> 3) % 2 == 1, number(s, 7)),
        major: given((items >> 4) % 2 == 1, number(s, 8)),
        minor: given((items >> 5) % 2 == 1, number(s, 9)),
    }
}

// Whether the number of each item that is present in a head record fits the item.
pub fn head_fits(s: &[u8]) -> bool
    ensures { result ≡ head_fits s.now }
{
    let items = number(s, 3);
    fits_item(items % 2 == 1, 65535, number(s, 4))
        & (fits_item((items >> 2) % 2 == 1, 65535, number(s, 6))
            & (fits_item((items >> 3) % 2 == 1, 65535, number(s, 7))
                & (fits_item((items >> 4) % 2 == 1, 4294967295, number(s, 8))
                    & fits_item((items >> 5) % 2 == 1, 4294967295, number(s, 9)))))
}
