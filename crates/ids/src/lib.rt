// The id of a section: mostly one or two digits, right where it is looked for. Whatever else stands there is left to the step that takes the token apart.
#![tactic(auto)]

ghost use Rattle.std.specs.Prelude.{◌≡◌, length, IfSome, Ok};
ghost use Rattle.tokens.specs.Listed.{tokens_from};
ghost use Rattle.layout.specs.Reading.{number_by};
ghost use Rattle.steps.specs.Views.{NumAt, whole_for};
ghost use Rattle.ids.specs.Ids.{figure_at};

use facts::Taken;
use numbers::Sort;
use spots::{Bad, Read};
use steps::number_at;
use tokens::Cursor;

// The decimal digit at a place.
fn figure_at(s: &[u8], at: usize) -> Option<u32>
    ensures { result ≡ figure_at s.now at }
{
    if s.len() <= at {
        return None;
    }
    let b = s[at];
    if b < b'0' {
        return None;
    }
    if b'9' < b {
        return None;
    }
    Some(u32::from(b - b'0'))
}

// An id of one or two digits at this very place.
fn short_id(s: &[u8], at: usize) -> Option<Taken<Read>>
    ensures { IfSome result (λ t. NumAt s.now at (Ok t) (number_by (length s.now) (whole_for Sort.SectionId) Sort.SectionId (tokens_from s.now at))) }
{
    let first = figure_at(s, at)?;
    let one = at + 1;
    if (Cursor { at: one }).ends_word(s) {
        let value = Read { value: first, at };
        return Some(Taken { value, next: one });
    }
    let second = figure_at(s, one)?;
    let two = at + 2;
    if (Cursor { at: two }).ends_word(s) {
        let id = 10 * first + second;
        let value = Read { value: id, at };
        return Some(Taken { value, next: two });
    }
    None
}

// The id of a section, read as `number_at` reads it.
pub fn id_at(s: &[u8], at: usize) -> Result<Taken<Read>, Bad>
    ensures { NumAt s.now at result (number_by (length s.now) (whole_for Sort.SectionId) Sort.SectionId (tokens_from s.now at)) }
{
    if let Some(id) = short_id(s, at) {
        return Ok(id);
    }
    number_at(s, at, Sort::SectionId)
}
