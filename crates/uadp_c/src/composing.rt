// Datagrams and messages written from parts.
ghost use Rattle.std.specs.Prelude.{◌≡◌};
ghost use Rattle.network_message.specs.Writer as datagram;
ghost use Rattle.dataset_message.specs.Writer as message;
ghost use Rattle.wire_writer.specs.Writing.{buffer_after};
ghost use Rattle.records.specs.Writers.{ids_in, sizes_in, types_for};
ghost use Rattle.records.specs.Items.{is_on};
ghost use Rattle.message_record.specs.Message.{header_in, head_fits};
ghost use Rattle.envelope_record.specs.Envelope.{envelope_in, envelope_fits};
ghost use Rattle.uadp_c.specs.Writing.{output_result, fitting};

use crate::rewrites::{not_fitting, written_result};
use config::first;
use envelope_record::{envelope_fits, envelope_in};
use message_record::message::{head_fits, header_in};
use records::writers::{sizes, types_for, writer_count};

// Writes a DataSetMessage from parts: the header of a head record; heartbeat is 0, or else a key frame ends after its header. A number of
// the record that does not fit its item is 6, after reading's numbers.
#[unsafe(no_mangle)]
pub extern "C" fn uadp_write_message(
    head: &[u8],
    heartbeat: u32,
    values: &[u8],
    lengths: &[usize],
    indices: &[u16],
    padding: u64,
    config: &[u8],
    writer: u32,
    out: &mut [u8],
) -> u64
    ensures { let types = types_for config.now writer in
        let header = header_in head.now in
        let g = message.given_message header (is_on heartbeat) values.now lengths.now indices.now padding in
        let output = fitting (head_fits head.now) (message.message_output types g) in
        (result ≡ output_result out.old output) × (out.new ≡ buffer_after out.old output) }
{
    let header = header_in(head);
    let types = types_for(config, writer);
    if !head_fits(head) {
        let refusal = dataset_message::writer::refusal(
            header,
            heartbeat != 0,
            values,
            lengths,
            indices,
            types,
            padding as usize,
        );
        return not_fitting(refusal);
    }
    let written = dataset_message::writer::write(
        out,
        header,
        heartbeat != 0,
        values,
        lengths,
        indices,
        types,
        padding as usize,
    );
    written_result(written)
}

// Writes a datagram from parts: the envelope of an envelope record, and the bytes of its variable parts. A number of the record that does
// not fit its item is 6, after reading's numbers.
#[unsafe(no_mangle)]
pub extern "C" fn uadp_write(
    envelope: &[u8],
    text: &[u8],
    ids: &[u8],
    promoted: &[u8],
    lengths: &[u8],
    messages: &[u8],
    config: &[u8],
    out: &mut [u8],
) -> u64
    ensures { let lists = datagram.given_datagram text.now ids.now promoted.now in
        let g = lists lengths.now messages.now in
        let x = envelope_in envelope.now in
        let written = datagram.datagram_output g x (sizes_in config.now) (ids_in config.now) in
        let output = fitting (envelope_fits envelope.now) written in
        (result ≡ output_result out.old output) × (out.new ≡ buffer_after out.old output) }
{
    let x = envelope_in(envelope);
    let n = writer_count(config);
    let size_list = sizes(config);
    let id_list = records::writers::ids(config);
    let configured_sizes = first(&size_list, n);
    let configured_ids = first(&id_list, n);
    if !envelope_fits(envelope) {
        let refusal = network_message::writer::refusal(
            x,
            text,
            ids,
            promoted,
            lengths,
            messages,
            configured_sizes,
            configured_ids,
        );
        return not_fitting(refusal);
    }
    let written = network_message::writer::write(
        out,
        x,
        text,
        ids,
        promoted,
        lengths,
        messages,
        configured_sizes,
        configured_ids,
    );
    written_result(written)
}
