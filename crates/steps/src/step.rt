// One thing expected at a place of the file: each takes the token apart and answers Grammar at that token.
ghost use Rattle.std.specs.Prelude.{◌≡◌, length};
ghost use Rattle.tokens.specs.Listed.{tokens_from};
ghost use Rattle.layout.specs.Reading.{left_of, right_of, number_by, pair_word};
ghost use Rattle.steps.specs.Views.{CloseAt, NumAt, PairAt, whole_for};
ghost use Rattle.spots.specs.Pasts.{PastAt};

use decimals::Decimal;
use facts::Taken;
use layout::Refusal;
use numbers::Sort;
use spots::{Bad, Read};
use tokens::{Cursor, Token};

pub fn left_at(s: &[u8], at: usize) -> Result<usize, Bad>
    ensures { PastAt s.now at result (left_of (length s.now) (tokens_from s.now at)) }
{
    let t = (Cursor { at }).token(s);
    let k = t.token;
    let Token::Left = k else {
        return Err(Bad {
            why: Refusal::Grammar,
            offset: t.start,
        });
    };
    Ok(t.next.at)
}

// A closing parenthesis: where it stands.
pub fn right_at(s: &[u8], at: usize) -> Result<Taken<usize>, Bad>
    ensures { CloseAt s.now at result (right_of (length s.now) (tokens_from s.now at)) }
{
    let t = (Cursor { at }).token(s);
    let k = t.token;
    let Token::Right = k else {
        return Err(Bad {
            why: Refusal::Grammar,
            offset: t.start,
        });
    };
    Ok(Taken {
        value: t.start,
        next: t.next.at,
    })
}

fn whole_for(sort: Sort, w: &[u8]) -> Option<u32>
    ensures { result ≡ whole_for sort w.now }
{
    match sort {
        Sort::SectionId => numbers::section_id(w),
        Sort::Hexadecimal => numbers::hexadecimal(w),
        Sort::Coordinate => None,
    }
}

// A whole number of this sort.
pub fn number_at(s: &[u8], at: usize, sort: Sort) -> Result<Taken<Read>, Bad>
    ensures { NumAt s.now at result (number_by (length s.now) (whole_for sort) sort (tokens_from s.now at)) }
{
    let t = (Cursor { at }).token(s);
    let k = t.token;
    let start = t.start;
    let next = t.next.at;
    let Token::Word = k else {
        return Err(Bad {
            why: Refusal::Grammar,
            offset: start,
        });
    };
    let v = whole_for(sort, &s[start..next]);
    let Some(value) = v else {
        let bad = numbers::bad_at(sort, &s[start..next]);
        let offset = start + bad;
        return Err(Bad {
            why: Refusal::Number,
            offset,
        });
    };
    Ok(Taken {
        value: Read { value, at: start },
        next,
    })
}

// The coordinate of the token there, looked at a second time.
pub(crate) fn pair_by_token(s: &[u8], at: usize) -> Result<Taken<Decimal>, Bad>
    ensures { PairAt s.now at result (pair_word (length s.now) (tokens_from s.now at)) }
{
    let t = (Cursor { at }).token(s);
    let k = t.token;
    let start = t.start;
    let next = t.next.at;
    let Token::Word = k else {
        return Err(Bad {
            why: Refusal::Grammar,
            offset: start,
        });
    };
    let d = coordinates::coordinate(&s[start..next]);
    let Some(value) = d else {
        let bad = numbers::bad_at(Sort::Coordinate, &s[start..next]);
        let offset = start + bad;
        return Err(Bad {
            why: Refusal::Number,
            offset,
        });
    };
    Ok(Taken { value, next })
}
