// The widths of the fixed types.
// A type goes by its number: any byte may stand for one, on the wire and in the lists of types that are lent, and each is answered. An enum
// would have to be made of it at each field, and is no plainer.
ghost use Rattle.std.specs.Prelude.{◌≡◌, ◌≤◌};
ghost use Rattle.plain_value.specs.Width.{width_of};

// From the number of a built-in type to its width in bytes; 0 where the type is not fixed.
static WIDTHS: [u8; 26] = [
    0, 1, 1, 1, 2, 2, 4, 4, 8, 8, 4, 8, 0, 8, 16, 0, 0, 0, 0, 4, 0, 0, 0, 0, 0, 0,
];

// The width of a fixed type, 0 for any other number: one look into the table, where a `match` on the type would be a jump.
pub fn width(t: u8) -> usize
    ensures { (result ≡ width_of t) × (result ≤ 16) }
{
    let place = t as usize;
    if WIDTHS.len() <= place {
        return 0;
    }
    WIDTHS[place] as usize
}
