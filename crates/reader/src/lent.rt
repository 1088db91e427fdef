// Reading a file into lent tables and a lent list of zone records.
ghost use Rattle.std.specs.Prelude.{◌≡◌};
ghost use Rattle.layout.specs.Read.{Outcome, outcome, read_of};
ghost use Rattle.layout.specs.Replies.{shown};

use super::zones::fill;
use filling::read_flat;
use layout::{Accepted, Refused};
use mesh::Zone;

// What is read is decided by `read_flat`, which answers the zone records as numbers; here they go into the list. A refusal has no records.
pub fn read(
    text: &[u8],
    mantissas: &mut [i64],
    exponents: &mut [i32],
    faces: &mut [u32],
    cells: &mut [u32],
    zones: &mut [Zone],
) -> Result<Accepted, Refused>
    ensures { ◌≡◌ {A = Outcome} (record { shown = shown result; held = record { mantissas = mantissas.new; exponents = exponents.new; faces = faces.new; cells = cells.new; zones = zones.new } }) (outcome (read_of text.now (record { mantissas = mantissas.old; exponents = exponents.old; faces = faces.old; cells = cells.old; zones = zones.old }))) }
{
    let room = zones.len();
    let c = read_flat(text, mantissas, exponents, faces, cells, room);
    fill(zones, &c.flat, c.zones);
    c.reply
}
