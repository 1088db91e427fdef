// One regular section of a file that is known to be good: its rows go to their table, its record to the list.
ghost use Rattle.std.specs.Prelude.{◌≡◌, ◌≤◌, ◌||◌, ◌==◌, nat_lt};
ghost use Rattle.mesh.specs.Rows.{node_words, places};
ghost use Rattle.sizes.specs.Sizes.{zones};
ghost use Rattle.layout.specs.Items.{node, cell, face};
ghost use Rattle.layout.specs.Rows.{mantissa_table, exponent_table, face_table, cell_table};
ghost use Rattle.sofar.specs.Sofar.{kind_for_id};
ghost use Rattle.filling.specs.Passing.{face_form, Bodied, Passes, PassesAny, PassesAt, laid_by, tabled, Kept, Laid};

use super::tops::top_at;
use super::words::{past_left, value_at};
use mesh::Zone;
use numbers::Sort;
use points::put_points;
use rows::{Form, put_rows, put_same};
use sofar::{count_of, kind_of};
use spots::Kind;
use tables::{put_record, rows_before};

// The tables and the list of records, lent to the steps that fill them.
#[derive(Drop)]
pub(crate) struct Lent<'a> {
    pub mantissas: &'a mut [i64],
    pub exponents: &'a mut [i32],
    pub faces: &'a mut [u32],
    pub cells: &'a mut [u32],
    pub list: &'a mut [u32],
}

// From behind its id; z records come before its own.
fn nodes_into(
    s: &[u8],
    at: usize,
    d: u32,
    z: usize,
    mantissas: &mut [i64],
    exponents: &mut [i32],
    list: &mut [u32],
)
    requires { (d ≤ node_words) × (z ≤ zones) }
    ensures { Passes s.now at z d node list.old list.new (λ i. (mantissas.new ≡ laid_by mantissa_table i mantissas.old) × (exponents.new ≡ laid_by exponent_table i exponents.old)) }
{
    let top = top_at(s, at, Kind::Node);
    let zone = top.value;
    let body = top.next;
    put_record(list, z, zone);
    let before = rows_before(zone.first);
    let n = count_of(zone.first, zone.last);
    let k = 3 * before;
    let inside = past_left(s, body);
    put_points(s, inside, d, n, mantissas, exponents, k);
}

// The rows of a cell section: one element for each cell, or the same for all.
fn put_cells(s: &[u8], at: usize, zone: Zone, n: u32, cells: &mut [u32], k: usize)
    ensures { Bodied s.now at cell_table n zone k cells.old cells.new }
{
    let element = zone.element;
    let ztype = zone.ztype;
    if element == 0 {
        let inside = past_left(s, at);
        put_rows(s, inside, Form::Element, ztype, n, cells, k);
        return;
    }
    put_same(element, ztype, n, cells, k);
}

fn cells_into(s: &[u8], at: usize, z: usize, cells: &mut [u32], list: &mut [u32])
    requires { z ≤ zones }
    ensures { PassesAny s.now at z cell list.old list.new (λ i. cells.new ≡ laid_by cell_table i cells.old) }
{
    let top = top_at(s, at, Kind::Cell);
    let zone = top.value;
    let body = top.next;
    put_record(list, z, zone);
    let before = rows_before(zone.first);
    let n = count_of(zone.first, zone.last);
    let k = 2 * before;
    put_cells(s, body, zone, n, cells, k);
}

// More nodes than a row has places stand in no good file.
fn is_mixed(element: u32) -> bool
    ensures { result ≡ (element == 0 || nat_lt places element) }
{
    element == 0 || 4 < element
}

fn face_form(element: u32) -> Form
    ensures { result ≡ face_form element }
{
    let mixed = is_mixed(element);
    if mixed {
        Form::Mixed
    } else {
        Form::Facing(element)
    }
}

fn put_faces(s: &[u8], at: usize, zone: Zone, n: u32, faces: &mut [u32], k: usize)
    ensures { Bodied s.now at face_table n zone k faces.old faces.new }
{
    let form = face_form(zone.element);
    let ztype = zone.ztype;
    let inside = past_left(s, at);
    put_rows(s, inside, form, ztype, n, faces, k);
}

fn faces_into(s: &[u8], at: usize, z: usize, faces: &mut [u32], list: &mut [u32])
    requires { z ≤ zones }
    ensures { PassesAny s.now at z face list.old list.new (λ i. faces.new ≡ laid_by face_table i faces.old) }
{
    let top = top_at(s, at, Kind::Face);
    let zone = top.value;
    let body = top.next;
    put_record(list, z, zone);
    let before = rows_before(zone.first);
    let n = count_of(zone.first, zone.last);
    let k = 8 * before;
    put_faces(s, body, zone, n, faces, k);
}

// What a section is by its id, where it is one that leaves rows.
fn kind_by(id: u32) -> Option<Kind>
    ensures { result ≡ kind_for_id id }
{
    kind_of(id)
}

// From behind its `(`.
pub(crate) fn section_into(s: &[u8], at: usize, d: u32, z: usize, lent: &mut Lent<'_>)
    requires { (d ≤ node_words) × (z ≤ zones) }
    ensures rows { PassesAt s.now at z d (tabled lent.old).list (tabled lent.new).list (Laid (tabled lent.old) (tabled lent.new)) }
    ensures same_references { Kept lent.old lent.new }
{
    let id = value_at(s, at, Sort::SectionId);
    let behind = id.next;
    let named = kind_by(id.value);
    let Some(kind) = named else {
        return;
    };
    match kind {
        Kind::Node => nodes_into(s, behind, d, z, lent.mantissas, lent.exponents, lent.list),
        Kind::Cell => cells_into(s, behind, z, lent.cells, lent.list),
        Kind::Face => faces_into(s, behind, z, lent.faces, lent.list),
    }
}
