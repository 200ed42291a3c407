// Reading a message's head and its fields.
ghost use Rattle.std.specs.Prelude.{◌≡◌};
ghost use Rattle.dataset_fields.specs.Fields.{next_field_at};
ghost use Rattle.dataset_message.specs.Message.{ended_at, field_place_at};
ghost use Rattle.records.specs.Result.{result_in, filled_in};
ghost use Rattle.records.specs.Writers.{types_for};
ghost use Rattle.message_record.specs.Message.{cursor_in};
ghost use Rattle.uadp_c.specs.ByCalls.{HeadRead, HeadOpened};
ghost use Rattle.uadp_c.specs.Fields.{field_filling, step_result, head_after, field_after, end_result};

// Reads a DataSetMessage alone into a message head record.
#[unsafe(no_mangle)]
pub extern "C" fn uadp_read_message(
    message: &[u8],
    config: &[u8],
    writer: u32,
    head: &mut [u8],
) -> u64
    ensures { let read = HeadRead message.now config.now writer in
        read head.old result head.new }
{
    uadp_c::fields::uadp_read_message(message, config, writer, head)
}

// Opens a DataSetMessage: its front alone, up to its first field. Worth: a seventh to a third of the time of a walk by calls over many
// fields, where each is then read once.
#[unsafe(no_mangle)]
pub extern "C" fn uadp_open_message(
    message: &[u8],
    config: &[u8],
    writer: u32,
    head: &mut [u8],
) -> u64
    ensures { let opened = HeadOpened message.now config.now writer in
        opened head.old result head.new }
{
    uadp_c::fields::uadp_open_message(message, config, writer, head)
}

// Ends a message that was opened, by its head record's cursor after the last field: only padding may follow.
#[unsafe(no_mangle)]
pub extern "C" fn uadp_end_message(message: &[u8], head: &[u8]) -> u64
    ensures { let held = head.now in
        result ≡ end_result (ended_at (cursor_in held) message.now) held }
{
    uadp_c::fields::uadp_end_message(message, head)
}

// Field k of a message, counted from 0, as a field record.
#[unsafe(no_mangle)]
pub extern "C" fn uadp_field(
    message: &[u8],
    config: &[u8],
    writer: u32,
    k: u64,
    field: &mut [u8],
) -> u64
    ensures { let found = field_filling (field_place_at (types_for config.now writer) k message.now) in
        (result ≡ result_in found field.old) × (field.new ≡ filled_in found field.old) }
{
    uadp_c::fields::uadp_field(message, config, writer, k, field)
}

// The field that a head record's cursor stands before, as a field record; the cursor then stands before the next one.
#[unsafe(no_mangle)]
pub extern "C" fn uadp_next_field(
    message: &[u8],
    config: &[u8],
    writer: u32,
    head: &mut [u8],
    field: &mut [u8],
) -> u64
    ensures { let step = next_field_at (cursor_in head.old) (types_for config.now writer) message.now in
        (result ≡ step_result step head.old field.old)
        × (head.new ≡ head_after step head.old field.old)
        × (field.new ≡ field_after step head.old field.old) }
{
    uadp_c::fields::uadp_next_field(message, config, writer, head, field)
}
