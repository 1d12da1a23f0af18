// Parts of what is lent, as far as it goes.
ghost use Rattle.std.specs.Prelude.{◌≡◌, take, drop};

// The first bytes, as far as there are so many.
pub fn front(bytes: &[u8], n: usize) -> &[u8]
    ensures { result.now ≡ take n bytes.now }
{
    bytes.get(..n).unwrap_or(bytes)
}

// What stands behind so many bytes.
pub fn behind(bytes: &[u8], n: usize) -> &[u8]
    ensures { result.now ≡ drop n bytes.now }
{
    bytes.get(n..).unwrap_or(&[])
}
