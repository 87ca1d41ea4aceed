// The end of a slice from a position, empty where the position is past the slice.
ghost use Rattle.std.specs.Prelude.{◌≡◌, drop};

pub fn from(s: &[u8], at: usize) -> &[u8]
    ensures { result.now ≡ drop at s.now }
{
    &s[at.min(s.len())..]
}
