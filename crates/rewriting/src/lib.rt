// What reading accepts, written again by one copy. The bytes that come out are the bytes that came in, so the parts need not
// be put together again; picoseconds, which are 9,999 where they were more, are stored over the copy, and only a datagram with
// PublisherId off can differ elsewhere, in its flag bytes.
#![tactic(auto)]

ghost use Rattle.std.specs.Prelude.{◌≡◌, ◌+◌, ◌≤◌, length};
ghost use Rattle.std.proofs.lemmas.List.Edits.{sets};
ghost use Rattle.wire.specs.Number.{le_bytes};
ghost use Rattle.wire_writer.specs.Writing.{Writes, writing};
ghost use Rattle.rewriting.specs.Same.{RewroteMessage, RewroteDatagram};

use dataset_header::header::picoseconds_place;
use network_message::writer::rewrite;
use publisher_id::publisher::publisher_on;
use wire::refusal::Reason;
use wire_writer::store::{Store, put_run};
use wire_writer::writing::{room_rule, size_of};

// All of a slice, from the start of a buffer.
fn copy_whole(out: &mut [u8], s: &[u8]) -> Result<usize, Reason>
    ensures { Writes (writing s.now) out.old out.new result }
{
    room_rule(s.len(), out.len())?;
    put_run(out, 0, s);
    Ok(s.len())
}

// The same, with the picoseconds that were read at their place in it.
fn copy_with(out: &mut [u8], s: &[u8], at: usize, picoseconds: u16) -> Result<usize, Reason>
    ensures { let bytes = sets s.now at (le_bytes 2 picoseconds) in
        (at + 2 ≤ length s.now → Writes (writing bytes) out.old out.new result) }
{
    let size = copy_whole(out, s)?;
    picoseconds.put(out, at);
    Ok(size)
}

// An accepted, valid DataSetMessage written again, picoseconds of 10,000 or more as 9,999; what reading refuses is refused, and
// one not valid is 6.
pub fn rewrite_message(out: &mut [u8], message: &[u8], types: &[u8]) -> Result<usize, Reason>
    ensures { RewroteMessage types.now message.now out.old out.new result }
{
    let read = dataset_message::message::read(&*message, &*types);
    let Some((header, _, _)) = read.map_err(|refusal| refusal.reason)? else {
        return Err(Reason::Disagree);
    };
    match header.picoseconds {
        None => copy_whole(out, message),
        Some(v) => copy_with(out, message, picoseconds_place(header), v),
    }
}

// An accepted datagram written again, under the sizes of the configured writers. PicoSeconds of 10,000 or more are written as
// 9,999; where PublisherId is off, its type bits are written as 0. Its messages stay as they are.
pub fn rewrite_datagram(out: &mut [u8], datagram: &[u8], sizes: &[u16]) -> Result<usize, Reason>
    ensures { RewroteDatagram sizes.now datagram.now out.old out.new result }
{
    let read = network_message::envelope::read(&*datagram, &*sizes);
    let (envelope, places, _) = read.map_err(|refusal| refusal.reason)?;
    if !publisher_on(envelope.publisher) {
        return rewrite(out, datagram, sizes);
    }
    match envelope.picoseconds {
        None => copy_whole(out, datagram),
        Some(v) => copy_with(
            out,
            datagram,
            places.payload_header_end + size_of(envelope.timestamp),
            v,
        ),
    }
}
