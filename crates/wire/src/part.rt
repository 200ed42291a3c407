// Parts of a lent slice, handed back as they stand. A part that reaches past the end has the bytes that are there.
ghost use Rattle.std.specs.Prelude.{◌≡◌, take, drop};

// The bytes from a position on.
pub fn tail(s: &[u8], at: usize) -> &[u8]
    ensures { result.now ≡ drop at s.now }
{
    if s.len() <= at {
        return &s[0..0];
    }
    &s[at..]
}

// The n bytes from a position on.
pub fn part(s: &[u8], at: usize, n: usize) -> &[u8]
    ensures { result.now ≡ take n (drop at s.now) }
{
    if s.len() <= at {
        return &s[0..0];
    }
    if s.len() - at <= n {
        return &s[at..];
    }
    let end = at + n;
    &s[at..end]
}
