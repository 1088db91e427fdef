// The front of a section: its parenthesis, its id, its header.
ghost use Rattle.sofar.specs.Sofar.{id_for};
ghost use Rattle.putting.specs.Putting.{Laid};
ghost use Rattle.writer.specs.inner.Sections.{head_for};

use super::words::lay_words;
use mesh::Zone;
use putting::{put_byte, put_decimal, put_hex, put_text};
use sofar::id_of;
use spots::Kind;

pub(crate) fn put_head(out: &mut [u8], at: usize, kind: Kind, z: Zone, fifth: u32) -> usize
    ensures { Laid out.old at (head_for (id_for kind) z fifth) out.new result }
{
    let a = put_byte(out, at, b'(');
    let b = put_decimal(out, a, u64::from(id_of(kind)));
    let c = put_text(out, b, b" (");
    let d = put_hex(out, c, u64::from(z.zone));
    let e = lay_words(out, d, b' ', &[z.first, z.last, z.ztype, fifth]);
    put_byte(out, e, b')')
}
