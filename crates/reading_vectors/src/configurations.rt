// Configuration texts. `A` has a text: the answer is number, place, and how many writers and fields there are. `X` has a text and a list
// of ids: after the answer comes a line for each id, its writer's place, size and field types, and a line that tells whether every writer
// has a size, and the sum of the sizes. `M` has such a list, for a record that no text has: it says more writers and fields than it
// holds, and starts past its end.
use config::{
    Config, WriterLists, all_sized, empty, fields_of, find_writer, number_of, sum_of_sizes,
};
use config_text::read_config;
use vector_lines::lines::{after, decimal_at, letter, low16, word};
use vector_lines::print::{digits, hex, number, put};

// Shows what a configuration of one line of the input says.
pub fn vector(rt: &impl Print, line: &[u8], text: &[u8]) {
    match letter(line) {
        b'M' => about(rt, made_up(), word(line, 1)),
        b'X' => about(rt, answer(rt, text), word(line, 2)),
        _ => {
            answer(rt, text);
        }
    }
}

fn made_up() -> Config {
    Config {
        writers: 200,
        fields: 9000,
        ids: [7u16; 16],
        sizes: [2u16; 16],
        starts: [200u8; 16],
        types: [6u8; 64],
    }
}

// The answer to a text, and the configuration that is asked about: the empty one of a text that is refused.
fn answer(rt: &impl Print, text: &[u8]) -> Config {
    let (told, place, config) = match read_config(text) {
        Ok(config) => (0, 0, config),
        Err(refusal) => (refusal.reason.number(), refusal.place, empty()),
    };
    digits(rt, told as u64);
    number(rt, place);
    number(rt, config.writers);
    number(rt, config.fields);
    config
}

fn about(rt: &impl Print, config: Config, asked: &[u8]) {
    let lists = config.lists();
    // By the position and not by `split`: a number is one only with the comma that ends it.
    let mut at: usize = 0;
    while at < asked.len() {
        writer(rt, lists, low16(decimal_at(asked, at, b',')));
        at = after(asked, at, b',');
    }
    all_sizes(rt, lists.sizes);
}

fn writer(rt: &impl Print, lists: WriterLists<'_>, id: u16) {
    let k = find_writer(lists.ids, id);
    put(rt, b"\nwriter");
    number(rt, id as usize);
    number(rt, k);
    number(rt, number_of(lists.sizes, k) as usize);
    hex(rt, fields_of(lists.ids, lists.starts, lists.types, id));
}

fn all_sizes(rt: &impl Print, sizes: &[u16]) {
    if all_sized(sizes) {
        put(rt, b"\nsized");
    } else {
        put(rt, b"\nunsized");
    }
    number(rt, sum_of_sizes(sizes));
}
