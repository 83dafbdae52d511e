//! A row in two.
ghost use Rattle.std.specs.Prelude.{◌≡◌, take, drop};

/// The first so many numbers, or all where there are no more.
pub(crate) fn front(row: &[u32], count: usize) -> &[u32]
    ensures { result.now ≡ take count row.now }
{
    if count >= row.len() {
        return row;
    }
    &row[..count]
}

/// The numbers behind the first so many.
pub(crate) fn behind(row: &[u32], count: usize) -> &[u32]
    ensures { result.now ≡ drop count row.now }
{
    if count >= row.len() {
        return &[];
    }
    &row[count..]
}
