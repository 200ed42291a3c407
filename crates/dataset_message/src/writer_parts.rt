// What `message` and `rewrite` share: whether fields follow a header, how many bytes a message takes, and FieldCount.
ghost use Rattle.std.specs.Prelude.{◌≡◌, ◌+◌, length};
ghost use Rattle.wire_writer.specs.Writing.{Puts};
ghost use Rattle.dataset_header.specs.Header.{message_header_bytes};
ghost use Rattle.dataset_message.specs.Writer.{has_fields, count_bytes, size_of_given, limited};

use dataset_header::flags::Kind;
use dataset_header::header::{Header, header_size};
use wire_writer::store::Store;

// Whether something follows the header of a message of this kind.
pub fn has_fields(kind: Kind, heartbeat: bool) -> bool
    ensures { result ≡ has_fields kind heartbeat }
{
    match kind {
        Kind::Key => !heartbeat,
        Kind::Delta => true,
        Kind::Event => true,
        Kind::KeepAlive => false,
    }
}

// a + b, at most 65,536, which is above every limit.
fn plus(a: usize, b: usize) -> usize
    ensures { result ≡ limited (a + b) }
{
    a.saturating_add(b).min(65536)
}

// How many bytes the message takes, at most 65,536.
pub fn size(
    header: Header,
    counted: bool,
    delta: bool,
    bytes: usize,
    count: usize,
    padding: usize,
) -> usize
    ensures { result ≡ limited (size_of_given (length (message_header_bytes header)) counted delta bytes count padding) }
{
    let front = header_size(header);
    let values = plus(bytes, padding);
    if delta {
        return plus(front, plus(2, plus(count, plus(count, values))));
    }
    if counted {
        return plus(front, plus(2, values));
    }
    plus(front, values)
}

// FieldCount, where there is one.
pub fn put_count(out: &mut [u8], at: usize, fielded: bool, raw: bool, n: usize) -> usize
    ensures { Puts (count_bytes fielded raw n) out.old at out.new result }
{
    if fielded & !raw {
        return ((n % 65536) as u16).put(out, at);
    }
    at
}
