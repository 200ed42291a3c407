// What the programs are given: their standard input, as far as a buffer holds it.
ghost use Rattle.std.specs.Prelude.{◌≤◌, length};

use std::io::Read;

// The bytes of a buffer that holds the whole input.
pub const LARGE: usize = 65536;

// Reads until the buffer is full, the input ends or a read fails, and answers how many bytes came, from the buffer's start on.
// The library's `read_exact` does not tell how many bytes came before the input ended.
pub fn read_full(input: &mut impl Read, buffer: &mut [u8]) -> usize
    ensures { result ≤ length buffer.new }
{
    let mut done = 0;
    while done < buffer.len() {
        match input.read(&mut buffer[done..]) {
            Ok(0) => break,
            Ok(n) => done += n,
            Err(_) => break,
        }
    }
    done
}
