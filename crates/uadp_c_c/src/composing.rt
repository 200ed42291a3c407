// Datagrams and messages written from parts.
ghost use Rattle.std.specs.Prelude.{◌≡◌};
ghost use Rattle.network_message.specs.Writer as datagram;
ghost use Rattle.dataset_message.specs.Writer as message;
ghost use Rattle.wire_writer.specs.Writing.{buffer_after};
ghost use Rattle.records.specs.Writers.{ids_in, sizes_in, types_for};
ghost use Rattle.records.specs.Items.{is_on};
ghost use Rattle.message_record.specs.Message.{header_in, head_fits};
ghost use Rattle.envelope_record.specs.Envelope.{envelope_in, envelope_fits};
ghost use Rattle.uadp_c.specs.Writing.{output_result, fitting};

// Writes a DataSetMessage from parts: the header of a head record; heartbeat is 0, or else a key frame ends after its header. A number of
// the record that does not fit its item is 6, after reading's numbers.
#[unsafe(no_mangle)]
pub extern "C" fn uadp_write_message(
    head: &[u8],
    heartbeat: u32,
    values: &[u8],
    lengths: &[usize],
    indices: &[u16],
    padding: u64,
    config: &[u8],
    writer: u32,
    out: &mut [u8],
) -> u64
    ensures { let types = types_for config.now writer in
        let header = header_in head.now in
        let g = message.given_message header (is_on heartbeat) values.now lengths.now indices.now padding in
        let output = fitting (head_fits head.now) (message.message_output types g) in
        (result ≡ output_result out.old output) × (out.new ≡ buffer_after out.old output) }
{
    uadp_c::composing::uadp_write_message(
        head, heartbeat, values, lengths, indices, padding, config, writer, out,
    )
}

// Writes a datagram from parts: the envelope of an envelope record, and the bytes of its variable parts. A number of the record that does
// not fit its item is 6, after reading's numbers.
#[unsafe(no_mangle)]
pub extern "C" fn uadp_write(
    envelope: &[u8],
    text: &[u8],
    ids: &[u8],
    promoted: &[u8],
    lengths: &[u8],
    messages: &[u8],
    config: &[u8],
    out: &mut [u8],
) -> u64
    ensures { let lists = datagram.given_datagram text.now ids.now promoted.now in
        let g = lists lengths.now messages.now in
        let x = envelope_in envelope.now in
        let written = datagram.datagram_output g x (sizes_in config.now) (ids_in config.now) in
        let output = fitting (envelope_fits envelope.now) written in
        (result ≡ output_result out.old output) × (out.new ≡ buffer_after out.old output) }
{
    uadp_c::composing::uadp_write(
        envelope, text, ids, promoted, lengths, messages, config, out,
    )
}
