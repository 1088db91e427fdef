// The audit: every fault of lent tables counted and, as far as the list has room, written.
#![tactic(auto)]

mod cells;
mod counts;
mod faces;
mod visits;

ghost use Rattle.std.specs.Prelude.{◌≡◌};
ghost use Rattle.mesh.specs.Rows.{places};
ghost use Rattle.audit.specs.Audit.{tables, is_dimension, totals_fit, Out, out, values_of, audit_of};

use faults::Frame;
use records::Pen;

#[derive(Clone, Copy, Debug, PartialEq, Eq)]
pub enum Refusal {
    Dimension,
    Totals,
    Counts,
}

// The number in the table of refusals.
impl From<Refusal> for u32 {
    ghost use Rattle.audit.specs.Audit.{number_of};
    ghost use Rattle.std.specs.Prelude.{◌≡◌};

    ghost from_gives = { λ refusal number. number ≡ number_of refusal };

    fn from(refusal: Refusal) -> u32 {
        match refusal {
            Refusal::Dimension => 15,
            Refusal::Totals => 16,
            Refusal::Counts => 17,
        }
    }
}

// How many faults there are, and how many bytes of the list their records take.
#[derive(Clone, Copy, Debug, PartialEq, Eq)]
pub struct Audited {
    pub total: u32,
    pub bytes: usize,
}

// How far the list is: its pen, and how many faults were found.
#[derive(Clone, Copy)]
struct Stand {
    pen: Pen,
    total: u32,
}

fn is_dimension(dim: u32) -> bool
    ensures { result ≡ is_dimension dim }
{
    dim == 2 || dim == 3
}

#[tactic(auto, unfolding(crate::specs::Audit::totals_fit))]
fn totals_fit(nodes: u32, faces: u32, cells: u32, face_rows: &[u32], cell_rows: &[u32]) -> bool
    ensures { result ≡ totals_fit places nodes faces cells face_rows.now cell_rows.now }
{
    nodes <= sizes::ROWS
        && faces <= sizes::ROWS
        && cells <= sizes::ROWS
        && faces as usize <= face_rows.len() / mesh::FACE_WORDS
        && cells as usize <= cell_rows.len() / mesh::CELL_WORDS
}

// Counts the sides of each cell into `counts`, and lays the faults in `list`. The tables come one by one, as every caller has them.
pub fn audit(
    dim: u32,
    nodes: u32,
    faces: u32,
    cells: u32,
    face_rows: &[u32],
    cell_rows: &[u32],
    counts: &mut [u32],
    list: &mut [u8],
) -> Result<Audited, Refusal>
    ensures { ◌≡◌ {A = Out} (out (values_of result) counts.new list.new)
        (audit_of places (tables dim nodes faces cells face_rows.now cell_rows.now) counts.old list.old) }
{
    if !is_dimension(dim) {
        return Err(Refusal::Dimension);
    }
    if !totals_fit(nodes, faces, cells, face_rows, cell_rows) {
        return Err(Refusal::Totals);
    }
    let wanted = cells as usize;
    if counts.len() < wanted {
        return Err(Refusal::Counts);
    }
    let frame = Frame { dim, nodes, cells };
    let half = faces::audit_faces(frame, faces as usize, face_rows, counts, list);
    let whole = cells::audit_cells(frame, cell_rows, counts, list, half);
    Ok(Audited {
        total: whole.total,
        bytes: whole.pen.at,
    })
}
