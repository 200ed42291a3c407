// The ids and strings that a probe lists, one after the other.
ghost use Rattle.std.specs.Prelude.{◌≡◌, []};
ghost use Rattle.wire.specs.Answer.{got};
ghost use Rattle.wire.specs.Refusal.{answer};
ghost use Rattle.probe.specs.Items.{item_count, id_item_at, text_bytes_at, text_item_at, item_of, item_step_at, null_item_at, answer_item_step};

use crate::body::Probe;
use wire::Length;
use wire::item::Item;
use wire::refusal::{Read, Reason, Refusal};

// An id or a string of a probe: its number from 0, and where its bytes stand; an id's value, and whether a string is null.
// They stand side by side, as the C interface's record has them.
#[derive(Clone, Copy, PartialEq, Eq, Debug)]
pub struct ProbeItem {
    pub index: usize,
    pub offset: usize,
    pub length: usize,
    pub id: u16,
    pub null: bool,
}

// A cursor over the items: the number of the next one, and where it starts.
#[derive(Clone, Copy, PartialEq, Eq, Debug)]
pub struct ProbeCursor {
    pub index: usize,
    pub at: usize,
}

// How many ids or strings a probe lists.
pub fn item_count(p: Probe) -> usize
    ensures { result ≡ item_count p }
{
    match p {
        Probe::MetaData(list) | Probe::Writers(list) | Probe::Connections(list, _, _) => {
            list.unwrap_or(0)
        }
        Probe::Group(_, _) => 0,
    }
}

// The id k, which stands at a position.
fn id_item(s: &[u8], k: usize, at: usize) -> Read<ProbeItem>
    ensures { answer result ≡ id_item_at k s.now at }
{
    let (id, next) = u16::read(s, at)?;
    let item = ProbeItem {
        index: k,
        offset: at,
        length: 2,
        id,
        null: false,
    };
    Ok((item, next))
}

// The n bytes of string k.
fn text_of(s: &[u8], k: usize, n: usize, start: usize) -> Read<ProbeItem>
    ensures { answer result ≡ text_bytes_at k n s.now start }
{
    let next = wire::skip(s, start, n)?;
    let item = ProbeItem {
        index: k,
        offset: start,
        length: n,
        id: 0,
        null: false,
    };
    Ok((item, next))
}

// String k where its length is null, which ends at a position.
fn null_item(k: usize, at: usize) -> ProbeItem
    ensures { got result at ≡ null_item_at k [] at }
{
    ProbeItem {
        index: k,
        offset: at,
        length: 0,
        id: 0,
        null: true,
    }
}

// String k, whose length stands at a position.
fn text_item(s: &[u8], k: usize, at: usize) -> Read<ProbeItem>
    ensures { answer result ≡ text_item_at k s.now at }
{
    let (length, start) = wire::read_length(s, at)?;
    match length {
        Length::Null => Ok((null_item(k, start), start)),
        Length::Of(n) => text_of(s, k, n, start),
        Length::Negative => Err(Reason::BadLength.at(at)),
    }
}

// Item k of a probe, which stands at a position.
fn item_of(s: &[u8], p: Probe, k: usize, at: usize) -> Read<ProbeItem>
    ensures { answer result ≡ item_of p k s.now at }
{
    match p {
        Probe::MetaData(_) | Probe::Writers(_) => id_item(s, k, at),
        Probe::Group(_, _) => Err(Reason::OverLimit.at(0)),
        Probe::Connections(_, _, _) => text_item(s, k, at),
    }
}

impl ProbeCursor {
    // The item that the cursor stands before, and the cursor before the next one. Probe and cursor may be made up.
    pub fn step(self, s: &[u8], p: Probe) -> Result<(ProbeItem, ProbeCursor), Refusal>
        ensures { answer_item_step result ≡ item_step_at p self s.now }
    {
        let k = self.index;
        if item_count(p) <= k {
            return Err(Reason::OverLimit.at(0));
        }
        let (item, next) = item_of(s, p, k, self.at)?;
        let cursor = ProbeCursor {
            index: k + 1,
            at: next,
        };
        Ok((item, cursor))
    }
}
