// What the listing program lists, by what it holds of its two inputs.
ghost use Rattle.std.specs.Prelude.{◌≡◌};
ghost use Rattle.listing.specs.Program.{program_cursor};

use walk::lines::{LineCursor, start};
use wire::refusal::Reason;

// How many bytes of the configuration text the program holds. A longer text is refused by a line within them.
pub const TEXT_ROOM: usize = 4096;

// The cursor before the program's first line, under a configuration whose reading gave a number and a place, and the sizes of its writers:
// s is what it holds of the datagram, and `more` says that there is more than it holds, which is 10.
pub fn first_line(s: &[u8], more: bool, number: u8, place: usize, sizes: &[u16]) -> LineCursor
    ensures { result ≡ program_cursor more number place sizes.now s.now }
{
    if number != 0 {
        return LineCursor::Bad(number, place);
    }
    if more {
        return LineCursor::Bad(Reason::OverLimit.number(), 0);
    }
    start(s, 0, 0, sizes)
}
