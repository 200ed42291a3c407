// The configuration record: its writers and fields as parts of the lent bytes.
ghost use Rattle.std.specs.Prelude.{◌≡◌, ◌+◌, ◌*◌, ◌≤◌, ◌<◌, length};
ghost use Rattle.wire_writer.specs.Store.{laid};
ghost use Rattle.text.specs.Words.{index_of};
ghost use Rattle.network_message.specs.Payload.{listed};
ghost use Rattle.records.specs.Writers.{number_in, writers_in, fields_in, sixteen, starts_in, types_in, types_for, config_bytes};
ghost use Rattle.records.specs.Sizes.{CONFIG_SIZE};
ghost use Rattle.wire.specs.Constants.{MOST_FIELDS, MOST_WRITERS};

use crate::numbers::put_each;
use crate::sizes::CONFIG_SIZE;
use config::{Config, writer_fields};
use wire::constants::{MOST_FIELDS, MOST_WRITERS};
use wire::item::Item;
use wire::part::part;
use wire_writer::store::{Store, put_run};

// The number at a place of a configuration record, or the most that it may be; none in a record that is too short.
fn number_in(config: &[u8], i: usize, most: usize) -> usize
    requires { i < CONFIG_SIZE }
    ensures { (result ≡ number_in i most config.now) × (result ≤ most) }
{
    if config.len() < CONFIG_SIZE {
        return 0;
    }
    (config[i] as usize).min(most)
}

// How many writers a configuration record has: none in one that is too short, never above 16.
pub fn writer_count(config: &[u8]) -> usize
    ensures { (result ≡ writers_in config.now) × (result ≤ MOST_WRITERS) }
{
    number_in(config, 0, MOST_WRITERS)
}

// How many fields a configuration record has: none in one that is too short, never above 64.
pub fn field_count(config: &[u8]) -> usize
    ensures { (result ≡ fields_in config.now) × (result ≤ MOST_FIELDS) }
{
    number_in(config, 1, MOST_FIELDS)
}

// 16 numbers of 2 bytes from a position on; none of them in a record that is too short.
fn sixteen(config: &[u8], at: usize) -> [u16; MOST_WRITERS]
    requires { at + 32 ≤ CONFIG_SIZE }
    ensures { result ≡ sixteen at config.now }
{
    let mut list = [0u16; MOST_WRITERS];
    if config.len() < CONFIG_SIZE {
        return list;
    }
    for i in 0..MOST_WRITERS {
        list[i] = u16::of(config, at + 2 * i);
    }
    list
}

// The DataSetWriterIds; of these as many count as there are writers.
pub fn ids(config: &[u8]) -> [u16; MOST_WRITERS]
    ensures { result ≡ sixteen 2 config.now }
{
    sixteen(config, 2)
}

// The sizes; of these as many count as there are writers.
pub fn sizes(config: &[u8]) -> [u16; MOST_WRITERS]
    ensures { result ≡ sixteen 34 config.now }
{
    sixteen(config, 34)
}

// The part of a configuration record that tells each writer's first field.
pub fn starts(config: &[u8]) -> &[u8]
    ensures { result.now ≡ starts_in config.now }
{
    part(config, 66, writer_count(config))
}

// The part of a configuration record that holds its fields' types.
pub fn types(config: &[u8]) -> &[u8]
    ensures { result.now ≡ types_in config.now }
{
    part(config, 82, field_count(config))
}

// Which of n writers has the id: the first one, or n where none has it.
fn find_id(config: &[u8], n: usize, id: u16) -> usize
    requires { 2 + 2 * n ≤ length config.now }
    ensures { result ≡ index_of id (listed n config.now 2) }
{
    for k in 0..n {
        if u16::of(config, 2 + 2 * k) == id {
            return k;
        }
    }
    n
}

// The configured field types of a writer, none for an id above 65,535.
pub fn types_for(config: &[u8], writer: u32) -> &[u8]
    ensures { result.now ≡ types_for config.now writer }
{
    if 65535 < writer {
        return part(config, 0, 0);
    }
    if config.len() < CONFIG_SIZE {
        return part(config, 0, 0);
    }
    let n = writer_count(config);
    let k = find_id(config, n, writer as u16);
    if n <= k {
        return part(config, 0, 0);
    }
    writer_fields(starts(config), types(config), k)
}

// Stores a configuration record from the start of a buffer; where it does not fit, nothing.
pub fn put_config(out: &mut [u8], config: Config)
    ensures { out.new ≡ laid out.old 0 (config_bytes config) }
{
    if out.len() < CONFIG_SIZE {
        return;
    }
    (config.writers.min(MOST_WRITERS) as u8).put(out, 0);
    (config.fields.min(MOST_FIELDS) as u8).put(out, 1);
    put_each(out, 2, &config.ids);
    put_each(out, 34, &config.sizes);
    put_run(out, 66, &config.starts);
    put_run(out, 82, &config.types);
}
