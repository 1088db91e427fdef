// Rows of words, judged and not kept.
ghost use Rattle.std.specs.Prelude.{length};
ghost use Rattle.tokens.specs.Listed.{tokens_from};
ghost use Rattle.layout.specs.Reading.{rows_of};
ghost use Rattle.layout.specs.Sections.{element_of, facing_of, mixed_of};
ghost use Rattle.steps.specs.Views.{NumAt};
ghost use Rattle.bodies.specs.Bodies.{LooseAt, forget, listed_of, row_unit};

use super::words::{decimals_past, each_past, hexes_each, hexes_past};
use facts::Taken;
use layout::Refusal;
use numbers::Sort;
use quick::digit_hex;
use spots::{Bad, Read};
use steps::number_at;

#[derive(Clone, Copy)]
pub enum Row {
    Element,
    Facing(u32),
    Mixed,
    Point(u32),
}

// A word that counts something: Type where no such count is listed.
fn listed_at(s: &[u8], at: usize, lo: u32, hi: u32) -> Result<Taken<Read>, Bad>
    ensures { NumAt s.now at result (listed_of (length s.now) lo hi (tokens_from s.now at)) }
{
    let word = number_at(s, at, Sort::Hexadecimal)?;
    let read = word.value;
    if (lo..=hi).contains(&read.value) {
        return Ok(word);
    }
    Err(Bad {
        why: Refusal::Type,
        offset: read.at,
    })
}

// Most elements are one digit.
fn element_past(s: &[u8], at: usize) -> Result<usize, Bad>
    ensures { LooseAt s.now at result (forget (element_of (length s.now) (tokens_from s.now at))) }
{
    if let Some(digit) = digit_hex(s, at) {
        if (1..=6).contains(&digit.value) {
            return Ok(digit.next);
        }
    }
    let word = listed_at(s, at, 1, 6)?;
    Ok(word.next)
}

// n nodes, the right cell, the left cell.
fn facing_past(s: &[u8], at: usize, n: u32) -> Result<usize, Bad>
    ensures { LooseAt s.now at result (forget (facing_of (length s.now) n (tokens_from s.now at))) }
{
    let words = n as usize + 2;
    hexes_each(s, at, words)
}

// Most counts are one digit.
fn mixed_past(s: &[u8], at: usize) -> Result<usize, Bad>
    ensures { LooseAt s.now at result (forget (mixed_of (length s.now) (tokens_from s.now at))) }
{
    if let Some(digit) = digit_hex(s, at) {
        if (2..=4).contains(&digit.value) {
            return facing_past(s, digit.next, digit.value);
        }
    }
    let count = listed_at(s, at, 2, 4)?;
    facing_past(s, count.next, count.value.value)
}

// n rows one behind the other. Rows of one width are so many words.
pub(crate) fn rows_past(s: &[u8], at: usize, row: Row, n: u32) -> Result<usize, Bad>
    ensures { LooseAt s.now at result (forget (rows_of (length s.now) (row_unit (length s.now) row) n (tokens_from s.now at))) }
{
    let rows = n as usize;
    match row {
        Row::Element => each_past(s, at, rows, |c| element_past(s, c)),
        Row::Facing(k) => {
            let width = k as usize + 2;
            let words = rows * width;
            hexes_past(s, at, words)
        }
        Row::Mixed => each_past(s, at, rows, |c| mixed_past(s, c)),
        Row::Point(d) => {
            let width = d as usize;
            let words = rows * width;
            decimals_past(s, at, words)
        }
    }
}
