// 18: whether some text of the layout gives these tables.
ghost use Rattle.std.specs.Prelude.{◌≡◌};
ghost use Rattle.texts.specs.Judged.{writable_of};
ghost use Rattle.writer.specs.inner.Tables.{mesh_with};

use super::front::front_fits;
use super::records::records_fit;
use super::rows::rows_fit;
use super::tables::{Tables, Totals};

pub(crate) fn is_writable(totals: Totals, tables: Tables<'_>, zones: &[u32]) -> bool
    ensures { result ≡ writable_of (mesh_with totals tables.entry zones.now) }
{
    if !front_fits(totals, tables) {
        return false;
    }
    if !records_fit(totals, zones) {
        return false;
    }
    rows_fit(tables, zones, totals.dimension)
}
