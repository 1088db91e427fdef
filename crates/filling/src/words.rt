// One thing at a place of a file that is known to be good. Nothing is refused: where another thing stands, the place stays.
ghost use Rattle.std.specs.Prelude.{◌≡◌, length};
ghost use Rattle.tokens.specs.Listed.{tokens_from};
ghost use Rattle.steps.specs.Views.{whole_for};
ghost use Rattle.layout.specs.Reading.{left_of, number_by};
ghost use Rattle.again.specs.Again.{Steps};

use facts::Taken;
use numbers::Sort;

// A number.
pub(crate) fn value_at(s: &[u8], at: usize, sort: Sort) -> Taken<u32>
    ensures { Steps s.now result.next (number_by (length s.now) (whole_for sort) sort (tokens_from s.now at)) (λ v. result.value ≡ v.value) }
{
    match steps::number_at(s, at, sort) {
        Ok(read) => Taken {
            value: read.value.value,
            next: read.next,
        },
        Err(_) => Taken { value: 0, next: at },
    }
}

pub(crate) fn past_left(s: &[u8], at: usize) -> usize
    ensures { Steps s.now result (left_of (length s.now) (tokens_from s.now at)) (λ u. Unit) }
{
    match steps::left_at(s, at) {
        Ok(next) => next,
        Err(_) => at,
    }
}
