// A header, word by word: `(zone first last type [fifth])`.
ghost use Rattle.std.specs.Prelude.{◌≡◌, ◌&&◌, ◌||◌, length, eqb};
ghost use Rattle.tokens.specs.Listed.{tokens_from};
ghost use Rattle.layout.specs.Sections.{starts_right, fifth_of, head_of};
ghost use Rattle.layout.specs.State.{is_node};
ghost use Rattle.heads.specs.Heads.{HeadAt, FifthAt};
ghost use Rattle.spots.specs.Heads.{kind_for, word_of, place_of};

use facts::Taken;
use numbers::Sort;
use spots::{Bad, Head, Kind, Read};
use steps::{left_at, number_at, right_at};
use tokens::{Cursor, Token};

fn is_node(kind: Kind) -> bool
    ensures { result ≡ is_node (kind_for kind) }
{
    matches!(kind, Kind::Node)
}

fn is_right(s: &[u8], at: usize) -> bool
    ensures { result ≡ starts_right (tokens_from s.now at) }
{
    let t = (Cursor { at }).token(s);
    let k = t.token;
    matches!(k, Token::Right)
}

// Is the fifth word absent where it may be?
fn is_absent(s: &[u8], at: usize, kind: Kind, zone: u32) -> bool
    ensures { result ≡ ((eqb zone 0 || is_node (kind_for kind)) && starts_right (tokens_from s.now at)) }
{
    (zone == 0 || is_node(kind)) && is_right(s, at)
}

fn fifth_at(s: &[u8], at: usize, kind: Kind, zone: u32) -> Result<Taken<Option<Read>>, Bad>
    ensures { FifthAt s.now at result (fifth_of (length s.now) (eqb zone 0 || is_node (kind_for kind)) (tokens_from s.now at)) }
{
    if is_absent(s, at, kind, zone) {
        return Ok(Taken {
            value: None,
            next: at,
        });
    }
    let word = number_at(s, at, Sort::Hexadecimal)?;
    Ok(Taken {
        value: Some(word.value),
        next: word.next,
    })
}

// The fifth word, if one is given.
fn word_of(fifth: Option<Read>) -> Option<u32>
    ensures { result ≡ word_of fifth }
{
    fifth.map(|word| word.value)
}

// Where it stands; 0 where none is given.
fn place_of(fifth: Option<Read>) -> usize
    ensures { result ≡ place_of fifth }
{
    fifth.map_or(0, |word| word.at)
}

pub fn head_at(s: &[u8], at: usize, kind: Kind) -> Result<Taken<Head>, Bad>
    ensures { HeadAt s.now at result (head_of (length s.now) (kind_for kind) (tokens_from s.now at)) }
{
    let start = left_at(s, at)?;
    let zone = number_at(s, start, Sort::Hexadecimal)?;
    let first = number_at(s, zone.next, Sort::Hexadecimal)?;
    let last = number_at(s, first.next, Sort::Hexadecimal)?;
    let ztype = number_at(s, last.next, Sort::Hexadecimal)?;
    let fifth = fifth_at(s, ztype.next, kind, zone.value.value)?;
    let close = right_at(s, fifth.next)?;
    let value = Head {
        zone: zone.value,
        first: first.value,
        last: last.value,
        ztype: ztype.value,
        fifth: word_of(fifth.value),
        place: place_of(fifth.value),
        end: close.value,
    };
    Ok(Taken {
        value,
        next: close.next,
    })
}
