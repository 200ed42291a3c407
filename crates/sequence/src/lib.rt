// Is a received sequence number newer than the last one? Document 01, "Newness".
#![tactic(auto)]

ghost use Rattle.std.specs.Prelude.{◌≡◌, ◌≤◌};
ghost use Rattle.sequence.specs.Newness.{distance_of, newness_of, no_number, newness_by, number_after, last_after};

// What is said of a received number.
#[derive(Clone, Copy, PartialEq, Eq, Debug)]
pub enum Newness {
    Newer,
    OldOrSame,
    Invalid,
}

// The record of the last number. Before any number `seen` is false, and `number` says nothing.
// The flag stands beside the number, which stays as it was where the flag is off: `after` and `noted` hand on any record that is lent.
#[derive(Clone, Copy, PartialEq, Eq, Debug)]
pub struct LastSequenceNumber {
    pub seen: bool,
    pub number: u16,
}

// What was said of a received number, and the record after it.
#[derive(Clone, Copy, PartialEq, Eq, Debug)]
pub struct Judged {
    pub newness: Newness,
    pub last: LastSequenceNumber,
}

// The record before any number.
pub fn no_number() -> LastSequenceNumber
    ensures { result ≡ no_number }
{
    LastSequenceNumber {
        seen: false,
        number: 0,
    }
}

// d = (received - 1 - last) modulo 65,536.
pub fn distance(last: u16, received: u16) -> u16
    ensures { (result ≡ distance_of last received) × (last ≤ 65535) }
{
    received.wrapping_sub(1).wrapping_sub(last)
}

// The judgement by value, from the last number and the received one.
pub fn judge(last: u16, received: u16) -> Newness
    ensures { result ≡ newness_of last received }
{
    let d = distance(last, received);
    if d < 16384 {
        return Newness::Newer;
    }
    if 49152 < d {
        return Newness::OldOrSame;
    }
    Newness::Invalid
}

// The judgement by a record: before any number, each is newer.
pub fn judge_by(last: LastSequenceNumber, received: u16) -> Newness
    ensures { result ≡ newness_by last received }
{
    if last.seen {
        return judge(last.number, received);
    }
    Newness::Newer
}

// The record after a judgement: "newer" alone changes it.
pub fn after(last: LastSequenceNumber, received: u16, newness: Newness) -> LastSequenceNumber
    ensures { result ≡ number_after last received newness }
{
    match newness {
        Newness::Newer => LastSequenceNumber {
            seen: true,
            number: received,
        },
        Newness::OldOrSame => last,
        Newness::Invalid => last,
    }
}

// The record is lent and changed in place.
pub fn note(last: &mut LastSequenceNumber, received: u16) -> Newness
    ensures { (result ≡ newness_by last.old received) × (last.new ≡ last_after last.old received) }
{
    let newness = judge_by(*last, received);
    *last = after(*last, received, newness);
    newness
}

// The same for a record by value: it is lent to `note`, and handed back with what `note` said.
pub fn noted(last: LastSequenceNumber, received: u16) -> Judged
    ensures { (result.newness ≡ newness_by last received) × (result.last ≡ last_after last received) }
{
    let mut kept = last;
    let newness = note(&mut kept, received);
    Judged {
        newness,
        last: kept,
    }
}
