// The payload: where its DataSetMessages stand.
ghost use Rattle.std.specs.Prelude.{◌≡◌, cond, ◌&&◌, leb, ◌+◌, ◌*◌, ◌≤◌, length, take, get_or};
ghost use Rattle.wire.specs.Lists.{total};
ghost use Rattle.wire.specs.Number.{le};
ghost use Rattle.wire.specs.Answer.{item};
ghost use Rattle.wire.specs.Refusal.{answer};
ghost use Rattle.network_message.specs.Payload.{all_positive, listed, rest_only_at, listed_at, sized_at, configured_at, probe_payload_at, payload_at, size_of_message, value_or0, place_of_message, nth_place_at, place_step_at, answer_messages, answer_place_step};
ghost use Rattle.network_header.specs.Numbers.{configured_sizes};
ghost use Rattle.wire.specs.Constants.{MOST_WRITERS};

use network_header::header::PayloadHeader;
use network_header::numbers::{number_at, writers};
use probe::body::read_body;
use wire::part::tail;
use wire::refusal::{Read, Reason, Refusal};

// Where a message's size stands: it takes the rest, its size is in the list at a position, or it is configured.
#[derive(Clone, Copy, PartialEq, Eq, Debug)]
pub enum Sizes {
    Rest,
    Listed(usize),
    Configured,
}

// The messages of a payload: how many, where their sizes stand, and where the first starts.
#[derive(Clone, Copy, PartialEq, Eq, Debug)]
pub struct Payload {
    pub count: usize,
    pub sizes: Sizes,
    pub first: usize,
}

// The sum of some sizes, and whether each is at least 1.
#[derive(Clone, Copy, PartialEq, Eq, Debug)]
pub struct Tally {
    pub total: usize,
    pub positive: bool,
}

// The number of two bytes that are there.
fn number_within(list: &[u8], at: usize) -> usize
    requires { at + 2 ≤ length list.now }
    ensures { (result ≡ le 2 list.now at) × (result ≤ 65535) }
{
    list[at] as usize + 256 * (list[at + 1] as usize)
}

// The sum of the n sizes that a list begins with, and whether each is at least 1; `tally_configured` has numbers of another kind and a way
// out of its own, so each has its loop. That the list has them is not tested at each: a quarter of the time of writing a datagram of
// twenty messages again.
fn tally_whole(list: &[u8], n: u16) -> Tally
    requires { 2 * n ≤ length list.now }
    ensures { let sizes = listed n list.now 0 in
        (result.total ≡ total sizes) × (result.positive ≡ all_positive sizes) × (result.total ≤ 65535 * n) }
{
    let mut sum = 0;
    let mut each = true;
    for i in 0..n as usize {
        let size = number_within(list, 2 * i);
        sum += size;
        each &= 0 < size;
    }
    Tally {
        total: sum,
        positive: each,
    }
}

// The same for any list: one that is too short has no such sum.
pub fn tally_listed(list: &[u8], n: u16) -> Tally
    ensures { let sizes = listed n list.now 0 in
        let whole = leb (2 * n) (length list.now) in
        (result.total ≡ cond whole (total sizes) 0) × (result.positive ≡ (whole && all_positive sizes)) }
{
    if list.len() < 2 * (n as usize) {
        return Tally {
            total: 0,
            positive: false,
        };
    }
    tally_whole(list, n)
}

// The first n configured sizes, 16 at most. The second way out keeps the loop from being unrolled and compiled to vectors, which takes 700
// bytes of code and no less time.
fn tally_configured(sizes: &[u16], n: usize) -> Tally
    requires { (n ≤ length sizes.now) × (n ≤ MOST_WRITERS) }
    ensures { let counted = take n sizes.now in
        (result.total ≡ total counted) × (result.positive ≡ all_positive counted) × (result.total ≤ 65535 * n) }
{
    let mut sum = 0;
    let mut each = true;
    for i in 0..n {
        if sizes.len() <= i {
            return Tally {
                total: sum,
                positive: each,
            };
        }
        let size = sizes[i] as usize;
        sum += size;
        each &= 0 < size;
    }
    Tally {
        total: sum,
        positive: each,
    }
}

// One message that takes the rest; 1 where nothing is left.
pub(crate) fn rest(s: &[u8], at: usize) -> Result<Payload, Refusal>
    ensures { answer_messages result ≡ rest_only_at s.now at }
{
    if s.len() <= at {
        return Err(Reason::CutShort.at(at));
    }
    Ok(Payload {
        count: 1,
        sizes: Sizes::Rest,
        first: at,
    })
}

fn listed_sizes(s: &[u8], n: u16, at: usize) -> Result<Payload, Refusal>
    ensures { answer_messages result ≡ listed_at n s.now at }
{
    let count = n as usize;
    if !wire::has(s.len(), at, 2 * count) {
        return Err(Reason::CutShort.at(at));
    }
    let tally = tally_whole(tail(s, at), n);
    if !tally.positive {
        return Err(Reason::Disagree.at(at));
    }
    let first = at + 2 * count;
    if tally.total != s.len() - first {
        return Err(Reason::Disagree.at(at));
    }
    Ok(Payload {
        count,
        sizes: Sizes::Listed(at),
        first,
    })
}

// Configured sizes of this total that are all given, of n writers.
fn sized(s: &[u8], n: usize, total: usize, at: usize) -> Result<Payload, Refusal>
    ensures { answer_messages result ≡ sized_at n total s.now at }
{
    if !wire::has(s.len(), at, total) {
        return Err(Reason::Disagree.at(at));
    }
    if total != s.len() - at {
        return Err(Reason::Disagree.at(at));
    }
    Ok(Payload {
        count: n,
        sizes: Sizes::Configured,
        first: at,
    })
}

fn configured_sizes(s: &[u8], sizes: &[u16], at: usize) -> Result<Payload, Refusal>
    ensures { answer_messages result ≡ configured_at (configured_sizes sizes.now) s.now at }
{
    let n = writers(sizes);
    if n == 0 {
        return Err(Reason::NotConfigured.at(0));
    }
    let tally = tally_configured(sizes, n);
    if tally.positive {
        return sized(s, n, tally.total, at);
    }
    if n == 1 {
        return rest(s, at);
    }
    Err(Reason::NotConfigured.at(0))
}

// The payload of a probe, which has no messages.
fn probe_payload(s: &[u8], at: usize) -> Result<Payload, Refusal>
    ensures { answer_messages result ≡ probe_payload_at s.now at }
{
    let _ = read_body(s, at)?;
    Ok(Payload {
        count: 0,
        sizes: Sizes::Rest,
        first: at,
    })
}

// The payload after a payload header; a Count of 0 is 6, a chunked probe 4.
pub fn read_payload(
    s: &[u8],
    chunk: bool,
    header: PayloadHeader,
    sizes: &[u16],
    at: usize,
) -> Result<Payload, Refusal>
    ensures { answer_messages result ≡ payload_at chunk header sizes.now s.now at }
{
    match header {
        PayloadHeader::Absent => {
            if chunk {
                return Err(Reason::NotConfigured.at(0));
            }
            configured_sizes(s, sizes, at)
        }
        PayloadHeader::Ids(n) => {
            if n == 0 {
                return Err(Reason::Disagree.at(at));
            }
            if n <= 1 {
                return rest(s, at);
            }
            listed_sizes(s, n, at)
        }
        PayloadHeader::Chunk(_) => Ok(Payload {
            count: 0,
            sizes: Sizes::Rest,
            first: at,
        }),
        PayloadHeader::Probe => {
            if chunk {
                return Err(Reason::NotTaken.at(at));
            }
            probe_payload(s, at)
        }
    }
}

// Where a DataSetMessage stands in the datagram.
#[derive(Clone, Copy, PartialEq, Eq, Debug)]
pub struct MessagePlace {
    pub index: usize,
    pub offset: usize,
    pub length: usize,
}

// A cursor over the messages: the number of the next one, and where it starts.
#[derive(Clone, Copy, PartialEq, Eq, Debug)]
pub struct MessageCursor {
    pub index: usize,
    pub at: usize,
}

// The k-th size of the list at p, 0 where it does not fit.
fn listed_size(s: &[u8], p: usize, k: usize) -> usize
    ensures { result ≡ value_or0 (item 2 s.now (p + 2 * k)) }
{
    if s.len() < p {
        return 0;
    }
    if (s.len() - p) / 2 <= k {
        return 0;
    }
    number_at(s, p + 2 * k)
}

// The k-th configured size, 0 where there is none.
fn configured_size(sizes: &[u16], k: usize) -> usize
    ensures { result ≡ get_or (configured_sizes sizes.now) k 0 }
{
    if writers(sizes) <= k {
        return 0;
    }
    sizes[k] as usize
}

fn message_size(s: &[u8], kind: Sizes, sizes: &[u16], k: usize, at: usize) -> usize
    ensures { result ≡ size_of_message kind sizes.now k s.now at }
{
    match kind {
        Sizes::Rest => wire::left(s.len(), at),
        Sizes::Listed(p) => listed_size(s, p, k),
        Sizes::Configured => configured_size(sizes, k),
    }
}

// Message k of a payload, which starts at a position.
fn message_at(s: &[u8], p: Payload, sizes: &[u16], k: usize, at: usize) -> Read<MessagePlace>
    ensures { answer result ≡ place_of_message p sizes.now k s.now at }
{
    if p.count <= k {
        return Err(Reason::OverLimit.at(0));
    }
    let length = message_size(s, p.sizes, sizes, k, at);
    let next = wire::skip(s, at, length)?;
    let place = MessagePlace {
        index: k,
        offset: at,
        length,
    };
    Ok((place, next))
}

impl MessageCursor {
    // The message that the cursor stands before, and the cursor before the next one.
    pub fn step(
        self,
        s: &[u8],
        p: Payload,
        sizes: &[u16],
    ) -> Result<(MessagePlace, MessageCursor), Refusal>
        ensures { answer_place_step result ≡ place_step_at p sizes.now self s.now }
    {
        let k = self.index;
        let (place, next) = message_at(s, p, sizes, k, self.at)?;
        let cursor = MessageCursor {
            index: k + 1,
            at: next,
        };
        Ok((place, cursor))
    }
}

// Message k of a payload, found from the start of the first.
pub fn nth(s: &[u8], p: Payload, sizes: &[u16], k: usize) -> Read<MessagePlace>
    ensures { answer result ≡ nth_place_at p sizes.now k s.now p.first }
{
    let mut at = p.first;
    for i in 0..k {
        let (_, next) = message_at(s, p, sizes, i, at)?;
        at = next;
    }
    message_at(s, p, sizes, k, at)
}
