// Reading a message's head and its fields.
ghost use Rattle.std.specs.Prelude.{◌≡◌, length};
ghost use Rattle.dataset_fields.specs.Fields.{next_field_at};
ghost use Rattle.dataset_message.specs.Message.{message_to, whole_or_front, ended_at, field_place_at};
ghost use Rattle.records.specs.Result.{result_in, filled_in};
ghost use Rattle.records.specs.Writers.{types_for};
ghost use Rattle.message_record.specs.Message.{cursor_in};
ghost use Rattle.uadp_c.specs.ByCalls.{HeadFilled, HeadRead, HeadOpened};
ghost use Rattle.uadp_c.specs.Fields.{field_filling, step_result, head_after, field_after, end_result};

use crate::refusals::{refused, refused_for};
use dataset_message::message::{ended, field_place, read_up_to};
use message_record::message::{cursor_in, put_cursor, put_field, put_head, put_no_head};
use message_record::quick::{Stepped, step};
use records::result::result;
use records::sizes::{FIELD_SIZE, HEAD_SIZE};
use records::writers::types_for;
use wire::refusal::Reason;

// Fills a message head record from a DataSetMessage alone, read whole or up to its first field.
fn fill_head(message: &[u8], config: &[u8], writer: u32, head: &mut [u8], whole: bool) -> u64
    ensures { let s = message.now in
        let read = message_to (length s) (whole_or_front whole) (types_for config.now writer) s in
        HeadFilled read s head.old result head.new }
{
    match read_up_to(&*message, types_for(&*config, writer), message.len(), whole) {
        Err(refusal) => refused(refusal),
        Ok(None) => {
            if head.len() < HEAD_SIZE {
                return refused_for(Reason::NoRoom);
            }
            put_no_head(head);
            result(0, 0)
        }
        Ok(Some((h, cursor, end))) => {
            if head.len() < HEAD_SIZE {
                return refused_for(Reason::NoRoom);
            }
            put_head(head, h, cursor, end);
            result(0, 1)
        }
    }
}

// Reads a DataSetMessage alone into a message head record.
#[unsafe(no_mangle)]
pub extern "C" fn uadp_read_message(
    message: &[u8],
    config: &[u8],
    writer: u32,
    head: &mut [u8],
) -> u64
    ensures { let read = HeadRead message.now config.now writer in
        read head.old result head.new }
{
    fill_head(&*message, &*config, writer, head, true)
}

// Opens a DataSetMessage: its front alone, up to its first field. Worth: a seventh to a third of the time of a walk by calls over many
// fields, where each is then read once.
#[unsafe(no_mangle)]
pub extern "C" fn uadp_open_message(
    message: &[u8],
    config: &[u8],
    writer: u32,
    head: &mut [u8],
) -> u64
    ensures { let opened = HeadOpened message.now config.now writer in
        opened head.old result head.new }
{
    fill_head(&*message, &*config, writer, head, false)
}

// Ends a message that was opened, by its head record's cursor after the last field: only padding may follow.
#[unsafe(no_mangle)]
pub extern "C" fn uadp_end_message(message: &[u8], head: &[u8]) -> u64
    ensures { let held = head.now in
        result ≡ end_result (ended_at (cursor_in held) message.now) held }
{
    match ended(message, cursor_in(head)) {
        Err(refusal) => refused(refusal),
        Ok(end) => {
            if head.len() < HEAD_SIZE {
                return refused_for(Reason::NoRoom);
            }
            result(0, end)
        }
    }
}

// Field k of a message, counted from 0, as a field record.
#[unsafe(no_mangle)]
pub extern "C" fn uadp_field(
    message: &[u8],
    config: &[u8],
    writer: u32,
    k: u64,
    field: &mut [u8],
) -> u64
    ensures { let found = field_filling (field_place_at (types_for config.now writer) k message.now) in
        (result ≡ result_in found field.old) × (field.new ≡ filled_in found field.old) }
{
    match field_place(message, types_for(config, writer), k as usize) {
        Err(refusal) => refused(refusal),
        Ok((f, _)) => {
            if field.len() < FIELD_SIZE {
                return refused_for(Reason::NoRoom);
            }
            put_field(field, f);
            result(0, f.offset)
        }
    }
}

// The field that a head record's cursor stands before, by a step of the cursor. It is called in several places, so that it is not put in
// line.
fn by_step(message: &[u8], config: &[u8], writer: u32, head: &mut [u8], field: &mut [u8]) -> u64
    ensures { let step = next_field_at (cursor_in head.old) (types_for config.now writer) message.now in
        (result ≡ step_result step head.old field.old)
        × (head.new ≡ head_after step head.old field.old)
        × (field.new ≡ field_after step head.old field.old) }
{
    let cursor = cursor_in(head);
    match cursor.step(&*message, types_for(&*config, writer)) {
        Err(refusal) => refused(refusal),
        Ok((f, next)) => {
            if head.len() < HEAD_SIZE {
                return refused_for(Reason::NoRoom);
            }
            if field.len() < FIELD_SIZE {
                return refused_for(Reason::NoRoom);
            }
            put_cursor(head, next);
            put_field(field, f);
            result(0, f.offset)
        }
    }
}

// The field that a head record's cursor stands before, as a field record; the cursor then stands before the next one.
#[unsafe(no_mangle)]
pub extern "C" fn uadp_next_field(
    message: &[u8],
    config: &[u8],
    writer: u32,
    head: &mut [u8],
    field: &mut [u8],
) -> u64
    ensures { let step = next_field_at (cursor_in head.old) (types_for config.now writer) message.now in
        (result ≡ step_result step head.old field.old)
        × (head.new ≡ head_after step head.old field.old)
        × (field.new ≡ field_after step head.old field.old) }
{
    if head.len() < HEAD_SIZE || field.len() < FIELD_SIZE {
        return by_step(message, config, writer, head, field);
    }
    match step(message, head, field) {
        Stepped::Done(offset) => result(0, offset),
        Stepped::End => refused_for(Reason::OverLimit),
        Stepped::Not => by_step(message, config, writer, head, field),
    }
}
