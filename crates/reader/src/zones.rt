// Zone records out of a flat table of numbers, into the lent list.
ghost use Rattle.std.specs.Prelude.{◌≡◌, ◌<◌, ◌≤◌, length};
ghost use Rattle.filling.specs.Zones.{zone_at, filled};

use mesh::Zone;

// The record at i, six words a record.
fn zone_at(flat: &[u32; 384], i: usize) -> Zone
    requires { i < 64 }
    ensures { result ≡ zone_at flat.now i }
{
    let b = i * 6;
    Zone {
        section: flat[b],
        zone: flat[b + 1],
        first: flat[b + 2],
        last: flat[b + 3],
        ztype: flat[b + 4],
        element: flat[b + 5],
    }
}

// The first n records of the table go to the start of the list.
pub(crate) fn fill(zs: &mut [Zone], flat: &[u32; 384], n: usize)
    requires { (n ≤ 64) × (n ≤ length zs.old) }
    ensures { zs.new ≡ filled flat.now n zs.old }
{
    for i in 0..n {
        zs[i] = zone_at(flat, i);
    }
}
