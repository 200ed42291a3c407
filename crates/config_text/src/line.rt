// One line of the configuration text.
ghost use Rattle.std.specs.Prelude.{◌≡◌, ◌≤◌, length};
ghost use Rattle.config_text.specs.Line.{line_from, rest_at, writer_rest, field_rest, size_at};

use plain_value::width::width;
use text::decimal::read_decimal;
use text::words::starts_with;

// What a line says.
#[derive(Clone, Copy, PartialEq, Eq, Debug)]
pub enum Line {
    // id, and size (0 for `-`)
    Writer(u16, u16),
    // a fixed type's number
    Field(u8),
}

// The size that ends a writer's line: `-`, which is 0, or 1 to 65,535.
fn read_size(s: &[u8], at: usize) -> Option<(u64, usize)>
    ensures { result ≡ size_at s.now at }
{
    if starts_with(s, at, b"-\n") {
        return Some((0, at + 2));
    }
    let (size, next) = read_decimal(s, at, b'\n', 65535)?;
    if size == 0 {
        return None;
    }
    Some((size, next))
}

// What follows the word `writer`: an id and a size.
fn read_writer(s: &[u8], at: usize) -> Option<(Line, usize)>
    ensures { result ≡ rest_at writer_rest s.now at }
{
    let (id, size_at) = read_decimal(s, at, b'\t', 65535)?;
    let (size, next) = read_size(s, size_at)?;
    Some((Line::Writer(id as u16, size as u16), next))
}

// What follows the word `field`: a fixed type's number.
fn read_field(s: &[u8], at: usize) -> Option<(Line, usize)>
    ensures { result ≡ rest_at field_rest s.now at }
{
    let (number, next) = read_decimal(s, at, b'\n', 255)?;
    let kind = number as u8;
    if width(kind) == 0 {
        return None;
    }
    Some((Line::Field(kind), next))
}

// The line from a position on, and the position after its newline; none where it is not permitted.
pub fn read_line(s: &[u8], at: usize) -> Option<(Line, usize)>
    ensures { result ≡ line_from s.now at }
{
    if starts_with(s, at, b"writer\t") {
        return read_writer(s, at + 7);
    }
    if starts_with(s, at, b"field\t") {
        return read_field(s, at + 6);
    }
    None
}
