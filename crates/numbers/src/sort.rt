// Where a word that is no number of its sort goes wrong.
ghost use Rattle.std.specs.Prelude.{◌≡◌};
ghost use Rattle.numbers.specs.Bad.{bad_at};

// The sorts of number that a place in a file asks for.
#[derive(Clone, Copy, Debug, PartialEq, Eq)]
pub enum Sort {
    SectionId,
    Hexadecimal,
    Coordinate,
}

// How far behind the word's first byte a Number refusal points.
pub fn bad_at(sort: Sort, w: &[u8]) -> usize
    ensures { result ≡ bad_at sort w.now }
{
    match sort {
        Sort::SectionId => 0,
        Sort::Hexadecimal => 0,
        Sort::Coordinate => 0,
    }
}
