// The DataSetWriterId of a message: listed in the PayloadHeader, or configured.
ghost use Rattle.std.specs.Prelude.{◌≡◌};
ghost use Rattle.network_message.specs.WriterId.{writer_id_of, listed_id, configured_id};

use network_header::header::PayloadHeader;
use network_header::numbers::writers;
use wire::item::Item;

// The k-th of n DataSetWriterIds that end at a position.
fn listed_id(s: &[u8], n: u16, end: usize, k: usize) -> Option<u16>
    ensures { result ≡ listed_id n end k s.now }
{
    let count = n as usize;
    if count <= k {
        return None;
    }
    let (id, _) = u16::read(s, wire::left(end, 2 * count) + 2 * k).ok()?;
    Some(id)
}

// The k-th configured DataSetWriterId.
fn configured_id(ids: &[u16], k: usize) -> Option<u16>
    ensures { result ≡ configured_id ids.now k }
{
    if writers(ids) <= k {
        return None;
    }
    Some(ids[k])
}

// The DataSetWriterId of message k: the k-th of a PayloadHeader that ends at a position, or of the configured writers.
pub fn writer_id(s: &[u8], header: PayloadHeader, end: usize, ids: &[u16], k: usize) -> Option<u16>
    ensures { result ≡ writer_id_of header end ids.now k s.now }
{
    match header {
        PayloadHeader::Absent => configured_id(ids, k),
        PayloadHeader::Ids(n) => listed_id(s, n, end, k),
        PayloadHeader::Chunk(w) => Some(w),
        PayloadHeader::Probe => None,
    }
}
