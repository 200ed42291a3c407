// The items of a text, each ended by a byte or by the text's end: the lines of a file, the words of a line, the numbers of a word.
ghost use Rattle.std.specs.Prelude.{◌≡◌, ◌-◌, ◌%◌, ◌≤◌, length, drop, get_or};
ghost use Rattle.text.specs.Words.{up_to};
ghost use Rattle.vector_lines.specs.Items.{after_item, word_start, word_of, shown_of, decimal_number_at, number_or0, lettered_in, low16_of};

use text::decimal::read_decimal;
use text::words::find;
use wire::part::{part, tail};

const MOST: u64 = u64::MAX;

// The item from a position on, without the byte that ends it.
pub fn item(text: &[u8], at: usize, end: u8) -> &[u8]
    ensures { result.now ≡ up_to end (drop at text.now) }
{
    part(text, at, find(tail(text, at), end))
}

// The position after that item and the byte that ends it: each step comes nearer to the text's end.
pub fn after(text: &[u8], at: usize, end: u8) -> usize
    ensures { let n = length text.now in
        (result ≡ after_item end text.now at) × (result ≤ n) × (n - result ≤ n - at - 1) }
{
    let n = find(tail(text, at), end);
    if text.len() <= at {
        return text.len();
    }
    if text.len() - at <= n {
        return text.len();
    }
    at + n + 1
}

// Where word k of a line starts.
fn start(line: &[u8], k: usize) -> usize
    ensures { result ≡ word_start k line.now }
{
    let mut at: usize = 0;
    for _ in 0..k {
        at = after(line, at, b' ');
    }
    at
}

// Word k of a line, from 0; empty where there is none.
pub fn word(line: &[u8], k: usize) -> &[u8]
    ensures { result.now ≡ word_of k line.now }
{
    item(line, start(line, k), b' ')
}

// The first byte, 0 where there is none.
pub fn letter(line: &[u8]) -> u8
    ensures { result ≡ get_or line.now 0 0 }
{
    line.first().copied().unwrap_or(0)
}

// What a line shows of itself: all; where it begins with a capital letter, what stands after its first semicolon.
pub fn shown(line: &[u8]) -> &[u8]
    ensures { result.now ≡ shown_of line.now }
{
    if !letter(line).is_ascii_uppercase() {
        return line;
    }
    tail(line, after(line, 0, b';'))
}

// The number of a decimal that was read, 0 of none.
fn number_or0(read: Option<(u64, usize)>) -> usize
    ensures { result ≡ number_or0 read }
{
    read.map_or(0, |(n, _)| n as usize)
}

// The decimal from a position up to the byte `end`, 0 where there is none.
pub fn decimal_at(text: &[u8], at: usize, end: u8) -> usize
    ensures { result ≡ decimal_number_at end text.now at }
{
    number_or0(read_decimal(text, at, end, MOST))
}

// The decimal that is word k of a line and not its last word; 0 where it is none.
pub fn decimal(line: &[u8], k: usize) -> usize
    ensures { result ≡ decimal_number_at 32 line.now (word_start k line.now) }
{
    decimal_at(line, start(line, k), b' ')
}

// A number of two bytes: the lowest two of a larger one.
pub fn low16(n: usize) -> u16
    ensures { result ≡ n % 65536 }
{
    (n % 65536) as u16
}

// The number that stands after a letter in a word that lists numbers.
// An item of the word ends where reading it says, so the position goes on by no fixed step.
pub fn lettered(word: &[u8], letter: u8) -> Option<(u64, usize)>
    ensures { result ≡ lettered_in letter word.now }
{
    let mut at = 0;
    while at < word.len() {
        if word[at] == letter {
            return read_decimal(word, at + 1, b',', MOST);
        }
        at = after(word, at, b',');
    }
    None
}

// The same as an item of two bytes, absent where the letter is.
pub fn lettered16(word: &[u8], letter: u8) -> Option<u16>
    ensures { result ≡ low16_of (lettered_in letter word.now) }
{
    lettered(word, letter).map(|(n, _)| low16(n as usize))
}

// The number that stands after a letter, 0 where the letter is absent.
pub fn numbered(word: &[u8], letter: u8) -> usize
    ensures { result ≡ number_or0 (lettered_in letter word.now) }
{
    number_or0(lettered(word, letter))
}
