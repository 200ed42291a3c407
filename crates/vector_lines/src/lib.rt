// What the programs of vectors share: the lines of a text and their words, the bytes that a word stands for, and answers printed.
//
// A line has words, parted by single spaces. A word that stands for bytes has items, parted by commas and laid one after the other: hex; a
// decimal, `*` and hex, that many times; or `'` and a text, in which `~` stands for a tab, `|` for a newline and `_` for a space. A word
// that lists numbers has items too, each ended by a comma, and where a letter stands before a number it tells what the number is.
#![tactic(auto)]

pub mod bytes;
pub mod input;
pub mod lines;
pub mod print;
