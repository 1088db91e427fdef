// The writer: 18 for what no text gives, then 19 for a text that has no room, then the text.
ghost use Rattle.std.specs.Prelude.{◌≡◌, ◌&&◌, leb};
ghost use Rattle.sizes.specs.Sizes.{file_bytes};
ghost use Rattle.texts.specs.Write.{Out, out, write_of};
ghost use Rattle.writer.specs.Writer.{number_of, values_of, flat_mesh};

use super::judge::is_writable;
use super::tables::{Tables, Totals};
use super::text::put_mesh;

#[derive(Clone, Copy, Debug, PartialEq, Eq)]
pub enum Refusal {
    Unwritable,
    TextRoom,
}

// A refusal's number.
impl From<Refusal> for u32 {
    ghost from_gives = { λ why number. number ≡ number_of why };

    fn from(why: Refusal) -> u32 {
        match why {
            Refusal::Unwritable => 18,
            Refusal::TextRoom => 19,
        }
    }
}

fn has_room(bytes: usize, room: usize) -> bool
    ensures { result ≡ (leb bytes file_bytes && leb bytes room) }
{
    bytes <= sizes::FILE_BYTES && bytes <= room
}

// The length of the text, or why there is none. The length is known before the first byte is written, so a text without room leaves what is lent as it was. The tables and totals stay loose parameters: callers outside have them so.
pub fn write_flat(
    dimension: u32,
    nodes: u32,
    faces: u32,
    cells: u32,
    mantissas: &[i64],
    exponents: &[i32],
    facerows: &[u32],
    cellrows: &[u32],
    zones: &[u32],
    text: &mut [u8],
) -> Result<usize, Refusal>
    ensures { ◌≡◌ {A = Out} (out (values_of result) text.new) (write_of (flat_mesh dimension nodes faces cells mantissas.now exponents.now facerows.now cellrows.now zones.now) text.old) }
{
    let totals = Totals {
        dimension,
        nodes,
        faces,
        cells,
    };
    let tables = Tables {
        mantissas,
        exponents,
        faces: facerows,
        cells: cellrows,
    };
    if !is_writable(totals, tables, zones) {
        return Err(Refusal::Unwritable);
    }
    let bytes = put_mesh(&mut [], totals, tables, zones);
    if !has_room(bytes, text.len()) {
        return Err(Refusal::TextRoom);
    }
    put_mesh(text, totals, tables, zones);
    Ok(bytes)
}
