// The dimension: the words that may give it, and what is known of it behind each.
#![tactic(auto)]

ghost use Rattle.std.specs.Prelude.{◌≡◌};
ghost use Rattle.layout.specs.State.{dim_after, dim_listed};
ghost use Rattle.spots.specs.Heads.{fifth_for};
ghost use Rattle.dims.specs.Dims.{dim_word_for, agrees, known};

use spots::Kind;

pub fn dim_listed(v: Option<u32>) -> bool
    ensures { result ≡ dim_listed (fifth_for v) }
{
    v.is_none_or(|n| n == 2 || n == 3)
}

// The dimension that a header's fifth word gives.
pub fn dim_word(kind: Kind, v: Option<u32>) -> Option<u32>
    ensures { result ≡ dim_word_for kind v }
{
    match kind {
        Kind::Node => v,
        Kind::Cell | Kind::Face => None,
    }
}

pub fn dim_after(dim: u32, v: Option<u32>) -> u32
    ensures { result ≡ dim_after dim (fifth_for v) }
{
    v.unwrap_or(dim)
}

pub fn dim_agrees(dim: u32, v: Option<u32>) -> bool
    ensures { result ≡ agrees dim (fifth_for v) }
{
    v.is_none_or(|n| dim == 0 || dim == n)
}

// A node section needs a dimension.
pub fn dim_known(kind: Kind, dim: u32) -> bool
    ensures { result ≡ known kind dim }
{
    kind != Kind::Node || dim != 0
}
