// Coordinates stored one behind the other: mantissas and exponents side by side.
ghost use Rattle.std.specs.Prelude.{◌≡◌, [], ◌∷◌, ◌+◌, ◌<◌, ◌≤◌, ◌^◌, length, replicate};
ghost use Rattle.tokens.specs.Listed.{tokens_from};
ghost use Rattle.steps.specs.Views.{pair_for};
ghost use Rattle.points.specs.Points.{seen, Kept, set_pairs, origin, pair_taken, pairs_taken, Took, Puts};

use decimals::Decimal;
use facts::Taken;
use stores::store;

// The two slices of a table of coordinates, lent to the steps that fill them.
#[derive(Drop)]
pub(crate) struct Lent<'a> {
    pub mantissas: &'a mut [i64],
    pub exponents: &'a mut [i32],
}

impl Lent<'_> {
    // A pair goes to the same place of both.
    fn put(&mut self, k: usize, pair: Decimal)
        ensures rows { seen self.new ≡ set_pairs (seen self.old) k (pair_for pair ∷ []) }
        ensures same_references { Kept self.old self.new }
    {
        store(self.mantissas, k, pair.mantissa);
        store(self.exponents, k, pair.exponent);
    }
}

const ORIGIN: Decimal = Decimal {
    mantissa: 0,
    exponent: 0,
};

// Where no coordinate stands, it is 0, and the place stays. `unwrap_or` was slower than this `match`.
fn coordinate_at(s: &[u8], at: usize) -> Taken<Decimal>
    ensures { Took s.now (pair_taken (length s.now) (tokens_from s.now at)) result }
{
    match steps::pair_at(s, at) {
        Ok(c) => c,
        Err(_) => Taken {
            value: ORIGIN,
            next: at,
        },
    }
}

fn put_pair(s: &[u8], at: usize, lent: &mut Lent<'_>, k: usize) -> usize
    ensures rows { Puts s.now (pairs_taken (length s.now) 1 (tokens_from s.now at)) k (seen lent.old) (seen lent.new) result }
    ensures same_references { Kept lent.old lent.new }
{
    let c = coordinate_at(s, at);
    lent.put(k, c.value);
    c.next
}

// n coordinates from place k on.
pub(crate) fn put_pairs(s: &[u8], at: usize, n: u32, lent: &mut Lent<'_>, k: usize) -> usize
    requires { k ≤ 2 ^ 63 }
    ensures rows { Puts s.now (pairs_taken (length s.now) n (tokens_from s.now at)) k (seen lent.old) (seen lent.new) result }
    ensures same_references { Kept lent.old lent.new }
{
    let mut c = at;
    for i in k..k + n as usize {
        c = put_pair(s, c, lent, i);
    }
    c
}

// n pairs of 0, 0 from place k on.
pub(crate) fn put_origins(n: usize, lent: &mut Lent<'_>, k: usize)
    requires { k + n < 2 ^ 64 }
    ensures rows { seen lent.new ≡ set_pairs (seen lent.old) k (replicate n origin) }
    ensures same_references { Kept lent.old lent.new }
{
    for i in k..k + n {
        lent.put(i, ORIGIN);
    }
}
