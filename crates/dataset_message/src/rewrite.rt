// A DataSetMessage read and written again.
ghost use Rattle.wire_writer.specs.Writing.{Puts, Writes, writing};
ghost use Rattle.dataset_message.specs.Rewrite.{parts_again, message_again};

use crate::message::read;
use crate::writer_parts::{has_fields, put_count, size};
use dataset_fields::fields::put_zeros;
use dataset_header::flags::is_raw;
use dataset_header::header::{Header, header_size, put_header};
use wire::left;
use wire::part::part;
use wire::refusal::Reason;
use wire_writer::store::put_run;
use wire_writer::writing::room_rule;

// The parts one after the other: the fields as they stand.
fn put_again(
    out: &mut [u8],
    header: Header,
    fielded: bool,
    count: usize,
    fields: &[u8],
    padding: usize,
) -> usize
    ensures { let bytes = parts_again header fielded count fields.now padding in
        Puts bytes out.old 0 out.new result }
{
    let next = put_header(out, header);
    let next = put_count(out, next, fielded, is_raw(header.encoding), count);
    let next = put_run(out, next, fields);
    put_zeros(out, next, padding)
}

fn write_again(
    out: &mut [u8],
    header: Header,
    fielded: bool,
    count: usize,
    fields: &[u8],
    padding: usize,
) -> Result<usize, Reason>
    ensures { let bytes = parts_again header fielded count fields.now padding in
        Writes (writing bytes) out.old out.new result }
{
    let counted = fielded & !is_raw(header.encoding);
    let bytes = size(header, counted, false, fields.len(), 0, padding);
    room_rule(bytes, out.len())?;
    put_again(out, header, fielded, count, fields, padding);
    Ok(bytes)
}

// A message that is read is written again from its parts; what reading refuses is refused, and one not valid is 6.
pub fn rewrite(out: &mut [u8], message: &[u8], types: &[u8]) -> Result<usize, Reason>
    ensures { let again = message_again types.now message.now in
        Writes again out.old out.new result }
{
    let parts = read(message, types).map_err(|refusal| refusal.reason)?;
    let Some((header, cursor, end)) = parts else {
        return Err(Reason::Disagree);
    };
    let fielded = has_fields(header.kind, message.len() <= header_size(header));
    let fields = part(message, cursor.at, left(end, cursor.at));
    let padding = left(message.len(), end);
    write_again(out, header, fielded, cursor.count, fields, padding)
}
