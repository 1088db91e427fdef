// Zone records as words, six each.
ghost use Rattle.std.specs.Prelude.{◌*◌, ◌≤◌, ◌≡◌, length, take};
ghost use Rattle.writer.specs.inner.Flat.{words_of, flat_of};

use mesh::Zone;

// Words in a zone record.
pub(crate) const ZONE_WORDS: usize = 6;

fn words_of(z: Zone) -> [u32; ZONE_WORDS]
    ensures { result ≡ words_of z }
{
    [z.section, z.zone, z.first, z.last, z.ztype, z.element]
}

// The records one behind the other, from the front on.
pub(crate) fn lay_records(flat: &mut [u32], zones: &[Zone])
    requires { 6 * length zones.now ≤ length flat.old }
    ensures { take (6 * length zones.now) flat.new ≡ flat_of zones.now }
{
    for (i, zone) in zones.iter().enumerate() {
        let at = ZONE_WORDS * i;
        flat[at..at + ZONE_WORDS].copy_from_slice(&words_of(*zone));
    }
}
