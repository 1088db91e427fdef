// What a case's line lends.
ghost use Rattle.std.specs.Prelude.{◌≤◌};

// So many words as the line's number at this place says, of `most`; none where it says nothing.
pub(crate) fn lent(numbers: &[u32], place: usize, most: usize) -> usize
    ensures { result ≤ most }
{
    let number = numbers.get(place).copied().unwrap_or(0);
    (number as usize).min(most)
}
