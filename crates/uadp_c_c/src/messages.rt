// Reading an envelope and its messages' places.
ghost use Rattle.std.specs.Prelude.{◌≡◌};
ghost use Rattle.uadp_c.specs.ByCalls.{EnvelopeRead};
ghost use Rattle.uadp_c.specs.Messages.{message_step, writer_at, message_result, envelope_after, place_after};

// Reads a datagram's envelope into an envelope record, whose cursor stands before the first message.
#[unsafe(no_mangle)]
pub extern "C" fn uadp_read(datagram: &[u8], config: &[u8], envelope: &mut [u8]) -> u64
    ensures { let read = EnvelopeRead datagram.now config.now in
        read envelope.old result envelope.new }
{
    uadp_c::messages::uadp_read(datagram, config, envelope)
}

// The message that an envelope record's cursor stands before, as a place record; the cursor then stands before the next one.
#[unsafe(no_mangle)]
pub extern "C" fn uadp_next_message(
    datagram: &[u8],
    config: &[u8],
    envelope: &mut [u8],
    place: &mut [u8],
) -> u64
    ensures { let step = message_step config.now envelope.old datagram.now in
        let writer = writer_at config.now envelope.old datagram.now in
        (result ≡ message_result step envelope.old place.old)
        × (envelope.new ≡ envelope_after step envelope.old place.old)
        × (place.new ≡ place_after writer step envelope.old place.old) }
{
    uadp_c::messages::uadp_next_message(datagram, config, envelope, place)
}
