// The index of a table's IDs, and the search in it.
ghost use Rattle.std.specs.Prelude.{◌≡◌, length};
ghost use Rattle.index.specs.Index.{indexed_in, build_answer, built_index, find_in};
ghost use Rattle.capi.specs.Answers.{form_by};
ghost use Rattle.capi.specs.Searches.{indexed_as, found_as};

use crate::form_of;
use index::find::Search;
use index::{build, find};

// Document 02's number, 0 if the index is built, and how many entries were placed, 0 if refused.
#[repr(C)]
#[derive(Clone, Copy)]
pub struct VcfhIndexed {
    pub number: u64,
    pub placed: u64,
}

// 1 and the entry's number, or 0 and 0 if nothing is found; how many places were looked at.
#[repr(C)]
#[derive(Clone, Copy)]
pub struct VcfhFound {
    pub found: u64,
    pub entry: u64,
    pub looked: u64,
}

fn found_of(search: Search) -> VcfhFound
    ensures { result ≡ found_as search }
{
    let looked = search.looked as u64;
    let found = search.found;
    match found {
        Some(n) => VcfhFound {
            found: 1,
            entry: n as u64,
            looked,
        },
        None => VcfhFound {
            found: 0,
            entry: 0,
            looked,
        },
    }
}

// Clears the index and places the entries of kinds 2 to 6.
#[unsafe(no_mangle)]
pub extern "C" fn vcfh_build_index(
    header: &[u8],
    table: &[u64],
    form: u64,
    index: &mut [u32],
) -> VcfhIndexed
    ensures answer { result ≡ indexed_as (build_answer (length index.old) (indexed_in (form_by form) header.now table.now)) }
    ensures index { index.new ≡ built_index (form_by form) header.now table.now index.old }
{
    let answer = build::build_index(header, table, form_of(form), index);
    let outcome = answer.outcome;
    let number = build::number(outcome);
    VcfhIndexed {
        number,
        placed: answer.placed as u64,
    }
}

// Looks for an entry of this kind whose ID has these bytes, unescaped.
#[unsafe(no_mangle)]
pub extern "C" fn vcfh_find(
    header: &[u8],
    table: &[u64],
    form: u64,
    index: &[u32],
    kind: u64,
    id: &[u8],
) -> VcfhFound
    ensures { result ≡ found_as (find_in (form_by form) header.now table.now index.now kind id.now) }
{
    found_of(find::find(header, table, form_of(form), index, kind, id))
}
