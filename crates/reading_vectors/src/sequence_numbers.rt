// Sequence numbers. `J` has the last number and the received one, and answers with the judgement. A history has numbers, and answers with
// a line for each: the number, its judgement by the record so far, and the last number afterwards. `H` starts from the record of no
// number, `M` from one that has a number though none was seen.
use sequence::{LastSequenceNumber, Newness};
use vector_lines::lines::{after, decimal, decimal_at, letter, low16, word};
use vector_lines::print::{digits, newline, number, put};

// Shows how a sequence number of one line of the input is judged.
pub fn vector(rt: &impl Print, line: &[u8]) {
    match letter(line) {
        b'J' => judged(rt, line),
        b'H' => history(rt, sequence::no_number(), word(line, 1)),
        _ => history(rt, unseen(low16(decimal(line, 1))), word(line, 2)),
    }
}

fn judged(rt: &impl Print, line: &[u8]) {
    let last = low16(decimal(line, 1));
    let received = low16(decimal(line, 2));
    newness(rt, sequence::judge(last, received));
}

fn unseen(number: u16) -> LastSequenceNumber {
    LastSequenceNumber {
        seen: false,
        number,
    }
}

fn history(rt: &impl Print, first: LastSequenceNumber, numbers: &[u8]) {
    let mut last = first;
    // By the position and not by `split`: a number is one only with the comma that ends it.
    let mut at: usize = 0;
    while at < numbers.len() {
        let received = low16(decimal_at(numbers, at, b','));
        let judged = sequence::noted(last, received);
        last = judged.last;
        step(rt, received, judged.newness, last);
        at = after(numbers, at, b',');
    }
}

fn step(rt: &impl Print, received: u16, judgement: Newness, last: LastSequenceNumber) {
    newline(rt);
    digits(rt, received as u64);
    newness(rt, judgement);
    put(rt, b" last");
    number(rt, last.number as usize);
}

fn newness(rt: &impl Print, x: Newness) {
    match x {
        Newness::Newer => put(rt, b" newer"),
        Newness::OldOrSame => put(rt, b" old"),
        Newness::Invalid => put(rt, b" invalid"),
    };
}
