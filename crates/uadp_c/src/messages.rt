// Reading an envelope and its messages' places.
ghost use Rattle.std.specs.Prelude.{◌≡◌};
ghost use Rattle.network_message.specs.Payload.{answer_place_step};
ghost use Rattle.uadp_c.specs.ByCalls.{EnvelopeRead};
ghost use Rattle.uadp_c.specs.Messages.{message_step, writer_at, message_result, envelope_after, place_after};

use crate::refusals::{refused, refused_for};
use config::first;
use envelope_record::{
    messages_in, payload_header_end, payload_header_in, payload_in, put_envelope, put_messages,
    put_place,
};
use network_message::envelope::read;
use network_message::payload::{MessageCursor, MessagePlace};
use network_message::writer_id::writer_id;
use records::result::result;
use records::sizes::{ENVELOPE_SIZE, PLACE_SIZE};
use records::writers::{ids, sizes, writer_count};
use wire::refusal::{Reason, Refusal};

// Reads a datagram's envelope into an envelope record, whose cursor stands before the first message.
#[unsafe(no_mangle)]
pub extern "C" fn uadp_read(datagram: &[u8], config: &[u8], envelope: &mut [u8]) -> u64
    ensures { let read = EnvelopeRead datagram.now config.now in
        read envelope.old result envelope.new }
{
    let n = writer_count(config);
    let list = sizes(config);
    match read(datagram, first(&list, n)) {
        Err(refusal) => refused(refusal),
        Ok((e, places, payload)) => {
            if envelope.len() < ENVELOPE_SIZE {
                return refused_for(Reason::NoRoom);
            }
            put_envelope(envelope, e, places, payload);
            result(0, payload.count)
        }
    }
}

fn step(
    datagram: &[u8],
    config: &[u8],
    envelope: &[u8],
) -> Result<(MessagePlace, MessageCursor), Refusal>
    ensures { answer_place_step result ≡ message_step config.now envelope.now datagram.now }
{
    let n = writer_count(config);
    let list = sizes(config);
    let payload = payload_in(envelope);
    let cursor = messages_in(envelope);
    cursor.step(datagram, payload, first(&list, n))
}

fn writer_at(datagram: &[u8], config: &[u8], envelope: &[u8], k: usize) -> Option<u16>
    ensures { result ≡ writer_at config.now envelope.now datagram.now k }
{
    let n = writer_count(config);
    let list = ids(config);
    let header = payload_header_in(envelope);
    let end = payload_header_end(envelope);
    writer_id(datagram, header, end, first(&list, n), k)
}

// The message that an envelope record's cursor stands before, as a place record; the cursor then stands before the next one.
#[unsafe(no_mangle)]
pub extern "C" fn uadp_next_message(
    datagram: &[u8],
    config: &[u8],
    envelope: &mut [u8],
    place: &mut [u8],
) -> u64
    ensures { let step = message_step config.now envelope.old datagram.now in
        let writer = writer_at config.now envelope.old datagram.now in
        (result ≡ message_result step envelope.old place.old)
        × (envelope.new ≡ envelope_after step envelope.old place.old)
        × (place.new ≡ place_after writer step envelope.old place.old) }
{
    match step(datagram, config, envelope) {
        Err(refusal) => refused(refusal),
        Ok((m, next)) => {
            if envelope.len() < ENVELOPE_SIZE {
                return refused_for(Reason::NoRoom);
            }
            if place.len() < PLACE_SIZE {
                return refused_for(Reason::NoRoom);
            }
            let writer = writer_at(datagram, config, envelope, m.index);
            put_messages(envelope, next);
            put_place(place, m, writer);
            result(0, m.index)
        }
    }
}
