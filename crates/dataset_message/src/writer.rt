// A DataSetMessage written whole.
ghost use Rattle.std.specs.Prelude.{◌≡◌, cond};
ghost use Rattle.wire.specs.Constants.{DISAGREE};
ghost use Rattle.wire.specs.Refusal.{rule_number};
ghost use Rattle.wire_writer.specs.Writing.{or_else, Puts};
ghost use Rattle.dataset_fields.specs.Fields.{values_of};
ghost use Rattle.dataset_message.specs.Writer.{given_message, is_key, own_refusal, each_whole, lists_agree, count_agrees, counts_agree, encode, message_refusal, WroteMessage};

use crate::given::Fields;
use crate::writer_parts::{has_fields, put_count, size};
use dataset_fields::fields::{add_up, judge_fields, put_zeros};
use dataset_header::flags::{Encoding, Kind, is_delta, is_raw, kind_rule};
use dataset_header::header::{Header, put_header};
use wire::refusal::Reason;
use wire_writer::writing::{agreement_rule, optional_picoseconds_rule, room_rule};

fn is_key(kind: Kind) -> bool
    ensures { result ≡ is_key kind }
{
    matches!(kind, Kind::Key)
}

// The first number by which a field is refused alone; then 6 where bytes stand behind a field's value.
fn own_refusal(
    fielded: bool,
    values: &[u8],
    lengths: &[usize],
    encoding: Encoding,
    types: &[u8],
) -> Result<(), Reason>
    ensures { let fields = values_of lengths.now values.now in
        let whole = each_whole fielded encoding types.now fields in
        rule_number result ≡ or_else (own_refusal fielded encoding types.now fields) (cond whole 0 DISAGREE) }
{
    if fielded {
        return judge_fields(values, lengths, encoding, types);
    }
    Ok(())
}

fn lists_agree(delta: bool, values: &[u8], lengths: &[usize], indices: &[u16]) -> bool
    ensures { result ≡ lists_agree delta values.now lengths.now indices.now }
{
    let up = add_up(lengths, values.len());
    if delta {
        return up & (indices.len() == lengths.len());
    }
    up & (indices.len() == 0)
}

fn count_agrees(raw: bool, configured: usize, n: usize) -> bool
    ensures { result ≡ count_agrees raw configured n }
{
    if raw {
        return (0 < n) & (n == configured);
    }
    n <= 65535
}

fn counts_agree(
    fielded: bool,
    raw: bool,
    key: bool,
    configured: usize,
    n: usize,
    padding: usize,
) -> bool
    ensures { result ≡ counts_agree fielded raw key configured n padding }
{
    if fielded {
        return count_agrees(raw, configured, n);
    }
    (n == 0) & (!key | (padding == 0))
}

// The rule by which `write` refuses these parts before it looks at the room, if any. What is read of the fields' layout is judged last:
// where each is whole and the lists agree.
pub fn refusal(
    header: Header,
    heartbeat: bool,
    values: &[u8],
    lengths: &[usize],
    indices: &[u16],
    types: &[u8],
    padding: usize,
) -> Result<(), Reason>
    ensures { let g = given_message header heartbeat values.now lengths.now indices.now padding in
        rule_number result ≡ message_refusal types.now g }
{
    let fielded = has_fields(header.kind, heartbeat);
    let raw = is_raw(header.encoding);
    let key = is_key(header.kind);
    kind_rule(header.kind, header.encoding)?;
    optional_picoseconds_rule(header.picoseconds)?;
    own_refusal(fielded, values, lengths, header.encoding, types)?;
    agreement_rule(lists_agree(is_delta(header.kind), values, lengths, indices))?;
    let fields = Fields { values, lengths };
    fields.layout_refusal(fielded, raw, key, types, padding)?;
    agreement_rule(counts_agree(fielded, raw, key, types.len(), lengths.len(), padding))
}

fn put_message(
    out: &mut [u8],
    header: Header,
    heartbeat: bool,
    fields: Fields,
    indices: &[u16],
    padding: usize,
) -> usize
    ensures { let g = given_message header heartbeat fields.entry.values.now fields.entry.lengths.now indices.now padding in
        Puts (encode g) out.old 0 out.new result }
{
    let next = put_header(out, header);
    let next = put_count(
        out,
        next,
        has_fields(header.kind, heartbeat),
        is_raw(header.encoding),
        fields.lengths.len(),
    );
    let next = fields.put(out, next, is_delta(header.kind), indices);
    put_zeros(out, next, padding)
}

// A message from the buffer's start: the header, and of a key frame whether it is a heartbeat; the fields' encoded values one after
// the other with their lengths, a delta's indices, the configured types of RawData; how many zero bytes follow.
pub fn write(
    out: &mut [u8],
    header: Header,
    heartbeat: bool,
    values: &[u8],
    lengths: &[usize],
    indices: &[u16],
    types: &[u8],
    padding: usize,
) -> Result<usize, Reason>
    ensures { let g = given_message header heartbeat values.now lengths.now indices.now padding in
        WroteMessage types.now g out.old out.new result }
{
    refusal(header, heartbeat, values, lengths, indices, types, padding)?;
    let counted = has_fields(header.kind, heartbeat) & !is_raw(header.encoding);
    let bytes = size(
        header,
        counted,
        is_delta(header.kind),
        values.len(),
        lengths.len(),
        padding,
    );
    room_rule(bytes, out.len())?;
    let fields = Fields { values, lengths };
    put_message(out, header, heartbeat, fields, indices, padding);
    Ok(bytes)
}
