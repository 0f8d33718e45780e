// Finding an ID by an index, which may hold any words.
ghost use Rattle.std.specs.Prelude.{◌≡◌, true, ◌<◌, length};
ghost use Rattle.values.specs.Bytes.{same};
ghost use Rattle.entries.specs.Values.{entry_of};
ghost use Rattle.index.specs.Index.{is_indexed, in_turn, is_named, walk, find_in, is_inside};

use crate::place;
use entries::entry::Entry;
use entries::form::Form;
use entries::table;
use values::string;

// What was found, and how many places were looked at.
#[derive(Clone, Copy)]
pub struct Search {
    pub found: Option<usize>,
    pub looked: usize,
}

// Every byte is looked at, with no way out before the end: where two IDs differ cannot be foretold, and a wrong guess of a processor
// costs more than the bytes.
// Kept: tried, with `a == b` `find` is 11 % slower.
fn is_same(a: &[u8], b: &[u8]) -> bool
    ensures { result ≡ same a.now b.now }
{
    if a.len() != b.len() {
        return false;
    }
    let mut alike = true;
    for i in 0..a.len() {
        alike &= a[i] == b[i];
    }
    alike
}

// Whether an entry of a kind that an index covers lies in a header of `size` bytes, with its ID, and has no tag.
fn is_inside(size: usize, e: Entry) -> bool
    ensures { result ≡ is_inside size (entry_of e) }
{
    e.tag == 0
        && e.start <= size
        && e.length <= size - e.start
        && e.offset <= e.length
        && e.id_length <= e.length - e.offset
}

// Whether entry n is there, and has this kind and this ID. Of a kind that an index covers, less is to be tested than of any.
fn is_named(h: &[u8], table: &[u64], form: Form, n: usize, kind: u8, id: &[u8]) -> bool
    requires { is_indexed kind ≡ true }
    ensures { result ≡ is_named form h.now table.now kind id.now n }
{
    let e = table::get(table, form, n);
    if e.kind != kind {
        return false;
    }
    if !is_inside(h.len(), e) {
        return false;
    }
    if !table::is_clear(table, form, n) {
        return false;
    }
    let start = e.start + e.offset;
    let end = start + e.id_length;
    let text = &h[start..end];
    if e.quoted {
        return string::same_meaning(text, true, id, false);
    }
    is_same(text, id)
}

// From the place `first` on, up to a 0, a hit or the last untried place.
fn walk(
    h: &[u8],
    table: &[u64],
    form: Form,
    index: &[u32],
    first: usize,
    kind: u8,
    id: &[u8],
) -> Search
    requires first_in_bounds { first < length index.now }
    requires kind_value { is_indexed kind ≡ true }
    ensures { result ≡ walk (is_named form h.now table.now kind id.now) (in_turn first index.now) }
{
    let places = index.len();
    let mut at = first;
    for k in 0..places {
        let word = index[at] as usize;
        let looked = k + 1;
        if word == 0 {
            return Search {
                found: None,
                looked,
            };
        }
        let n = word - 1;
        if is_named(h, table, form, n, kind, id) {
            return Search {
                found: Some(n),
                looked,
            };
        }
        at = place::next_place(places, at);
    }
    Search {
        found: None,
        looked: places,
    }
}

// Looks for an entry of this kind whose ID has these bytes, unescaped. A place that names no such entry is passed over.
pub fn find(header: &[u8], table: &[u64], form: Form, index: &[u32], kind: u64, id: &[u8]) -> Search
    ensures { result ≡ find_in form header.now table.now index.now kind id.now }
{
    if !place::is_indexed(kind) {
        return Search {
            found: None,
            looked: 0,
        };
    }
    let places = index.len();
    if places == 0 {
        return Search {
            found: None,
            looked: 0,
        };
    }
    let first = place::first_place(places, kind as u8, id, false);
    walk(header, table, form, index, first, kind as u8, id)
}
