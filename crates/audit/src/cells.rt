// The pass over the cells.
ghost use Rattle.std.specs.Prelude.{◌≡◌, ◌<◌, ◌≤◌, ◌*◌, ◌-◌, ◌^◌, length, get_or};
ghost use Rattle.sizes.specs.Sizes.{rows as most};
ghost use Rattle.mesh.specs.Rows.{cell_words, rows_in, cell_at};
ghost use Rattle.faults.specs.Over.{each};
ghost use Rattle.faults.specs.Faults.{cell_extra};
ghost use Rattle.faults.specs.All.{cell_faults};
ghost use Rattle.audit.specs.Steps.{Visited, SoundCells};

use super::Stand;
use super::visits::visit;
use faults::Frame;
use mesh::Cell;
use records::Fault;

fn extra_of(kind: u32, count: u32) -> u32
    ensures { result ≡ cell_extra count kind }
{
    if kind == records::COUNTED { count } else { 0 }
}

// The cell row at c, counted from 0. The caller knows that the row is there, so nothing is asked.
fn cell_of(rows: &[u32], c: usize) -> Cell
    requires { c < rows_in cell_words rows.now }
    ensures { result ≡ cell_at rows.now c }
{
    let start = c * mesh::CELL_WORDS;
    let end = start + mesh::CELL_WORDS;
    let row = &rows[start..end];
    Cell {
        element: row[0],
        ztype: row[1],
    }
}

// The first cell, counted from 0, that has a fault; the number of cells, if none has.
// In most meshes none has, and then this short loop is the whole pass.
fn sound_cells(frame: Frame, rows: &[u32], counts: &[u32]) -> usize
    requires { (frame.cells ≤ length counts.now) × (frame.cells ≤ rows_in cell_words rows.now) }
    ensures { SoundCells frame rows.now counts.now result }
{
    let cells = frame.cells as usize;
    for c in 0..cells {
        let cell = cell_of(rows, c);
        if faults::any_cell_fault(frame.dim, cell, counts[c]) {
            return c;
        }
    }
    cells
}

pub(crate) fn audit_cells(
    frame: Frame,
    rows: &[u32],
    counts: &[u32],
    list: &mut [u8],
    start: Stand,
) -> Stand
    requires { (frame.cells ≤ most) × (frame.cells ≤ length counts.now) × (start.total < 2 ^ 30) × (frame.cells ≤ rows_in cell_words rows.now) }
    ensures { Visited list.old start (each (cell_faults frame rows.now (λ c. get_or counts.now (c - 1) 0)) 1 frame.cells) (2 * frame.cells) list.new result }
{
    let cells = frame.cells as usize;
    let mut s = start;
    let sound = sound_cells(frame, rows, counts);
    'cells: for c in sound..cells {
        let cell = cell_of(rows, c);
        let count = counts[c];
        let number = (c + 1) as u32;
        let mut marks = faults::cell_marks(frame, cell, count);
        'kinds: for kind in 8..10 {
            let fault = Fault {
                kind,
                index: number,
                extra: extra_of(kind, count),
            };
            s = visit(marks % 2, fault, list, s);
            marks /= 2;
        }
    }
    s
}
