// The value record (include/uadp.h): a field's value told apart.
ghost use Rattle.std.specs.Prelude.{◌≡◌};
ghost use Rattle.wire_writer.specs.Store.{laid};
ghost use Rattle.records.specs.Numbers.{number_bytes};
ghost use Rattle.message_record.specs.Value.{dimensions_length, dimensions_place, value_numbers};

use crate::message::{elements_number, shape_number};
use records::items::flag_number;
use records::numbers::put_numbers;
use value::{Shape, dimensions};
use value_parts::data_value::FieldParts;
use value_parts::name::Name;
use wire::left;

// How many bytes the dimensions list of a shape has.
fn list_bytes(shape: Shape) -> usize
    ensures { result ≡ dimensions_length shape }
{
    match shape {
        Shape::Matrix(_, d) => 4 + 4 * (d as usize),
        _ => 0,
    }
}

// Where the dimensions of a value that ends at `end` stand, 0 where it has no list.
fn sizes_place(shape: Shape, end: usize) -> usize
    ensures { result ≡ dimensions_place shape end }
{
    match shape {
        Shape::Matrix(_, d) => left(end, 4 * (d as usize)),
        _ => 0,
    }
}

// Stores a value's record at the buffer's start; where it does not fit, nothing.
pub fn put_value(out: &mut [u8], f: FieldParts, name: Name)
    ensures { out.new ≡ laid out.old 0 (number_bytes (value_numbers f name)) }
{
    let v = f.value;
    let numbers = [
        v.kind as u64,
        shape_number(v.shape),
        elements_number(v.shape),
        v.width as u64,
        v.first as u64,
        left(left(v.end, list_bytes(v.shape)), v.first) as u64,
        flag_number(v.null),
        f.end as u64,
        f.mask as u64,
        f.variant as u64,
        f.status as u64,
        f.source_time as u64,
        f.source_picoseconds as u64,
        f.server_time as u64,
        f.server_picoseconds as u64,
        dimensions(v.shape) as u64,
        sizes_place(v.shape, v.end) as u64,
        name.number as u64,
        name.locale.place as u64,
        name.locale.length as u64,
        name.text.place as u64,
        name.text.length as u64,
        0,
        0,
    ];
    put_numbers(out, &numbers);
}
