// A section's body, judged and not kept.
ghost use Rattle.std.specs.Prelude.{◌≡◌, length};
ghost use Rattle.tokens.specs.Listed.{tokens_from};
ghost use Rattle.layout.specs.Reading.{enclosed_of};
ghost use Rattle.layout.specs.Sections.{body_of};
ghost use Rattle.spots.specs.Heads.{kind_for, fifth_for};
ghost use Rattle.bodies.specs.Bodies.{LooseAt, forget, row_unit, cell_shape, face_shape, shape_of};

use super::rows::{Row, rows_past};
use layout::Refusal;
use spots::{Bad, Kind};
use steps::{left_at, right_at};

// What stands in a body: rows of one form, nothing, or what no header can ask for.
#[derive(Clone, Copy)]
pub enum Shape {
    Rows(Row),
    Bare,
    Never,
}

fn cell_shape(fifth: Option<u32>) -> Shape
    ensures { result ≡ cell_shape (fifth_for fifth) }
{
    match fifth {
        Some(0) => Shape::Rows(Row::Element),
        Some(_) => Shape::Bare,
        None => Shape::Never,
    }
}

fn face_shape(fifth: Option<u32>) -> Shape
    ensures { result ≡ face_shape (fifth_for fifth) }
{
    match fifth {
        Some(0) => Shape::Rows(Row::Mixed),
        Some(v) => Shape::Rows(Row::Facing(v)),
        None => Shape::Never,
    }
}

fn shape_of(kind: Kind, d: u32, fifth: Option<u32>) -> Shape
    ensures { result ≡ shape_of (kind_for kind) d (fifth_for fifth) }
{
    match kind {
        Kind::Node => Shape::Rows(Row::Point(d)),
        Kind::Cell => cell_shape(fifth),
        Kind::Face => face_shape(fifth),
    }
}

fn enclosed_past(s: &[u8], at: usize, row: Row, n: u32) -> Result<usize, Bad>
    ensures { LooseAt s.now at result (forget (enclosed_of (length s.now) (row_unit (length s.now) row) n (tokens_from s.now at))) }
{
    let inside = left_at(s, at)?;
    let behind = rows_past(s, inside, row, n)?;
    let close = right_at(s, behind)?;
    Ok(close.next)
}

// The body of n things of a kind; d coordinates a node.
pub fn body_at(
    s: &[u8],
    at: usize,
    kind: Kind,
    d: u32,
    n: u32,
    fifth: Option<u32>,
) -> Result<usize, Bad>
    ensures { LooseAt s.now at result (forget (body_of (length s.now) (kind_for kind) d n (fifth_for fifth) (tokens_from s.now at))) }
{
    match shape_of(kind, d, fifth) {
        Shape::Rows(row) => enclosed_past(s, at, row, n),
        Shape::Bare => Ok(at),
        Shape::Never => Err(Bad {
            why: Refusal::Grammar,
            offset: s.len(),
        }),
    }
}
