// The index of a table's IDs, and the search in it.
ghost use Rattle.std.specs.Prelude.{◌≡◌, length};
ghost use Rattle.index.specs.Index.{indexed_in, build_answer, built_index, find_in};
ghost use Rattle.capi.specs.Answers.{form_by};
ghost use Rattle.capi.specs.Searches.{indexed_as, found_as};

use capi::indexes;
use capi::indexes::{VcfhFound, VcfhIndexed};

// Clears the index and places the entries of kinds 2 to 6.
#[unsafe(no_mangle)]
pub extern "C" fn vcfh_build_index(
    header: &[u8],
    table: &[u64],
    form: u64,
    index: &mut [u32],
) -> VcfhIndexed
    ensures answer { result ≡ indexed_as (build_answer (length index.old) (indexed_in (form_by form) header.now table.now)) }
    ensures index { index.new ≡ built_index (form_by form) header.now table.now index.old }
{
    indexes::vcfh_build_index(header, table, form, index)
}

// Looks for an entry of this kind whose ID has these bytes, unescaped.
#[unsafe(no_mangle)]
pub extern "C" fn vcfh_find(
    header: &[u8],
    table: &[u64],
    form: u64,
    index: &[u32],
    kind: u64,
    id: &[u8],
) -> VcfhFound
    ensures { result ≡ found_as (find_in (form_by form) header.now table.now index.now kind id.now) }
{
    indexes::vcfh_find(header, table, form, index, kind, id)
}
