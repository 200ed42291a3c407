// Items that a list may lack.
use vector_lines::lines::lettered;
use wire::item::signed64;

// An item of 4 bytes.
pub fn optional32(list: &[u8], letter: u8) -> Option<u32> {
    let (n, _) = lettered(list, letter)?;
    Some((n % 4294967296) as u32)
}

// A signed item of 8 bytes, listed as the number that stands for it.
pub fn optional_i64(list: &[u8], letter: u8) -> Option<i64> {
    let (n, _) = lettered(list, letter)?;
    Some(signed64(n))
}
