// What a configuration says: the record, and the questions asked of its arrays, lent as slices. Any slices have an answer.
#![tactic(auto)]

ghost use Rattle.std.specs.Prelude.{◌≡◌, ◌≤◌, take, get_or};
ghost use Rattle.text.specs.Words.{index_of, contains};
ghost use Rattle.config.specs.Writers.{at_most, fields_of, fields_of_id, types_by, lists_in, writers_of, all_sized, sum_of_sizes, empty_config};
ghost use Rattle.wire.specs.Constants.{MOST_WRITERS};

use wire::constants::{MOST_FIELDS, MOST_WRITERS};
use wire::part::part;

// The writers in order: each with its id, its size (0 where it has none) and how many fields stand before its own;
// and the types of all fields. Only the first `writers` and the first `fields` entries say something.
#[derive(Clone, Copy, PartialEq, Eq, Debug)]
pub struct Config {
    pub writers: usize,
    pub fields: usize,
    pub ids: [u16; MOST_WRITERS],
    pub sizes: [u16; MOST_WRITERS],
    pub starts: [u8; MOST_WRITERS],
    pub types: [u8; MOST_FIELDS],
}

// The lists of a configuration: the writers' ids, sizes and starts, and the types of all fields.
#[derive(Clone, Copy)]
pub struct WriterLists<'a> {
    pub ids: &'a [u16],
    pub sizes: &'a [u16],
    pub starts: &'a [u8],
    pub types: &'a [u8],
}

// How many writers there are: not above 16, whatever the record says.
pub fn writer_count(writers: usize) -> usize
    ensures { (result ≡ at_most MOST_WRITERS writers) × (result ≤ MOST_WRITERS) }
{
    if MOST_WRITERS < writers {
        return MOST_WRITERS;
    }
    writers
}

// The first n of a list of numbers, all of it where it has fewer: the ids or sizes of n writers.
pub fn first(list: &[u16], n: usize) -> &[u16]
    ensures { result.now ≡ take n list.now }
{
    if list.len() <= n {
        return list;
    }
    &list[0..n]
}

// Writer k's id or size, out of the list of them; 0 where there is no writer k.
pub fn number_of(list: &[u16], k: usize) -> u16
    ensures { result ≡ get_or list.now k 0 }
{
    if list.len() <= k {
        return 0;
    }
    list[k]
}

// Which writer has the id: the first one, or their number where none has it.
pub fn find_writer(ids: &[u16], id: u16) -> usize
    ensures { result ≡ index_of id ids.now }
{
    ids.iter().position(|x| *x == id).unwrap_or(ids.len())
}

// Whether an id is among these.
pub fn has_writer(ids: &[u16], id: u16) -> bool
    ensures { result ≡ contains id ids.now }
{
    ids.contains(&id)
}

// The field types of writer k.
pub fn writer_fields<'a>(starts: &'a [u8], types: &'a [u8], k: usize) -> &'a [u8]
    ensures { result.now ≡ fields_of starts.now types.now k }
{
    if starts.len() <= k {
        return part(types, 0, 0);
    }
    let start = starts[k] as usize;
    if starts.len() <= k + 1 {
        return part(types, start, types.len());
    }
    let end = starts[k + 1] as usize;
    if end < start {
        return part(types, 0, 0);
    }
    part(types, start, end - start)
}

// The field types of the writer with the id, none where no writer has it.
pub fn fields_of<'a>(ids: &'a [u16], starts: &'a [u8], types: &'a [u8], id: u16) -> &'a [u8]
    ensures { result.now ≡ fields_of_id ids.now starts.now types.now id }
{
    let k = find_writer(ids, id);
    if ids.len() <= k {
        return part(types, 0, 0);
    }
    writer_fields(starts, types, k)
}

impl<'a> WriterLists<'a> {
    // The field types of a message, by its writer's id; none where it has no id.
    pub fn types_of(self, writer: Option<u16>) -> &'a [u8]
        ensures { result.now ≡ types_by (lists_in self.entry) writer }
    {
        match writer {
            None => part(self.types, 0, 0),
            Some(id) => fields_of(self.ids, self.starts, self.types, id),
        }
    }
}

impl Config {
    // Its lists: as many entries as there are writers and fields.
    pub fn lists(&self) -> WriterLists<'_>
        ensures { lists_in result ≡ writers_of self.now }
    {
        let n = writer_count(self.writers);
        WriterLists {
            ids: first(&self.ids, n),
            sizes: first(&self.sizes, n),
            starts: part(&self.starts, 0, n),
            types: part(&self.types, 0, self.fields),
        }
    }
}

// Has every writer a size?
pub fn all_sized(sizes: &[u16]) -> bool
    ensures { result ≡ all_sized sizes.now }
{
    !has_writer(sizes, 0)
}

// The sum of the sizes of the first 16 writers.
pub fn sum_of_sizes(sizes: &[u16]) -> usize
    ensures { (result ≡ sum_of_sizes sizes.now) × (result ≤ 1048560) }
{
    let list = first(sizes, MOST_WRITERS);
    let mut sum = 0;
    for size in list {
        sum += *size as usize;
    }
    sum
}

// The configuration of an empty text.
pub fn empty() -> Config
    ensures { result ≡ empty_config }
{
    Config {
        writers: 0,
        fields: 0,
        ids: [0u16; MOST_WRITERS],
        sizes: [0u16; MOST_WRITERS],
        starts: [0u8; MOST_WRITERS],
        types: [0u8; MOST_FIELDS],
    }
}
