// The whole reader, with the zone records as numbers: the file is judged, and only then are its rows written.
ghost use Rattle.std.specs.Prelude.{◌≡◌};
ghost use Rattle.layout.specs.Replies.{shown};
ghost use Rattle.filling.specs.Found.{Tables, Told, told, core_of};

use super::fill::fill_tables;
use super::parts::Lent;
use layout::{Accepted, Refused};
use points::coordinates_in;
use tables::room_for;

// The answer, the number of zone records, and the records: section id, zone, first, last, type, element of each, one behind the other.
#[derive(Clone, Copy)]
pub struct Found {
    pub reply: Result<Accepted, Refused>,
    pub zones: usize,
    pub flat: [u32; 384],
}

// Reads a file into lent tables, with room for so many zone records.
pub fn read_flat(
    s: &[u8],
    mantissas: &mut [i64],
    exponents: &mut [i32],
    faces: &mut [u32],
    cells: &mut [u32],
    room: usize,
) -> Found
    ensures { ◌≡◌ {A = Told} (record { shown = shown result.reply; zones = result.zones; flat = result.flat; held = record { mantissas = mantissas.new; exponents = exponents.new; faces = faces.new; cells = cells.new } }) (told (core_of s.now room (record { mantissas = mantissas.old; exponents = exponents.old; faces = faces.old; cells = cells.old }))) }
{
    let limits = room_for(
        mantissas.len(),
        exponents.len(),
        faces.len(),
        cells.len(),
        room,
    );
    let located = survey::locate(s, limits);
    let reply = located.reply;
    let at = located.places;
    let mut flat: [u32; 384] = [0; 384];
    match reply {
        Err(_) => Found {
            reply,
            zones: 0,
            flat,
        },
        Ok(accepted) => {
            let d = coordinates_in(accepted.dim);
            let n = accepted.zones as usize;
            let mut lent = Lent {
                mantissas,
                exponents,
                faces,
                cells,
                list: &mut flat,
            };
            fill_tables(s, &at, n, d, &mut lent);
            Found {
                reply,
                zones: n,
                flat,
            }
        }
    }
}
