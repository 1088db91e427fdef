// The writer over a list of zone records.
ghost use Rattle.std.specs.Prelude.{◌≡◌};
ghost use Rattle.texts.specs.Write.{Out, out, write_of, mesh_of};
ghost use Rattle.writer.specs.Writer.{values_of, lent};

use super::answer::{Refusal, write_flat};
use super::flat::{ZONE_WORDS, lay_records};
use mesh::Zone;
use sizes::ZONES;

pub fn write(
    dimension: u32,
    nodes: u32,
    faces: u32,
    cells: u32,
    mantissas: &[i64],
    exponents: &[i32],
    facerows: &[u32],
    cellrows: &[u32],
    zones: &[Zone],
    text: &mut [u8],
) -> Result<usize, Refusal>
    ensures { ◌≡◌ {A = Out} (out (values_of result) text.new) (write_of (mesh_of dimension nodes faces cells (lent mantissas.now exponents.now facerows.now cellrows.now zones.now)) text.old) }
{
    // A mesh has no more records than this: with more, no text gives it.
    let too_many = ZONES < zones.len();
    if too_many {
        return Err(Refusal::Unwritable);
    }
    let mut flat = [0; ZONE_WORDS * ZONES];
    lay_records(&mut flat, zones);
    let end = ZONE_WORDS * zones.len();
    write_flat(
        dimension,
        nodes,
        faces,
        cells,
        mantissas,
        exponents,
        facerows,
        cellrows,
        &flat[..end],
        text,
    )
}
