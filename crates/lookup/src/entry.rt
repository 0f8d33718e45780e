// An entry, with all that it tells; and whether it stands under a key and an ID.
ghost use Rattle.std.specs.Prelude.{◌≡◌};
ghost use Rattle.rules.specs.Entry.{if_counted};
ghost use Rattle.entries.specs.Values.{entry_of};
ghost use Rattle.entries.specs.Tables.{entry_at};
ghost use Rattle.lookup.specs.Entries.{entry_key, described_in, is_under};

use entries::entry::Entry;
use entries::form::Form;
use entries::{kind, part, shown};
use values::{bytes, string};

// Its kind, its line, its key after the `##` and its ID without quotes, all as parts of the header; 0 and 0 where it has no key or no ID.
#[derive(Clone, Copy)]
pub struct Described {
    pub kind: u8,
    pub start: usize,
    pub length: usize,
    pub key_start: usize,
    pub key_length: usize,
    pub has_id: bool,
    pub id_start: usize,
    pub id_length: usize,
    pub quoted: bool,
}

// The key on an entry's line; none on a column line, and of a sample.
fn key_of(h: &[u8], e: Entry) -> &[u8]
    ensures { result.now ≡ entry_key h.now (entry_of e) }
{
    if kind::OTHER_TEXT < e.kind {
        return &h[..0];
    }
    let l = part::line_part(h, e);
    if !bytes::starts_with(l, b"##") {
        return &h[..0];
    }
    bytes::part(l, 2, bytes::find(l, 2, b'='))
}

fn if_told(is_told: bool, n: usize) -> usize
    ensures { result ≡ if_counted is_told n }
{
    if is_told { n } else { 0 }
}

// Entry n, from 0; none where there is no such entry, or it is not well formed.
pub fn describe(h: &[u8], table: &[u64], form: Form, n: usize) -> Option<Described>
    ensures { result ≡ described_in h.now (entry_at form h.now table.now n) }
{
    let Some(e) = shown::entry_at(h, table, form, n) else {
        return None;
    };
    let key = key_of(h, e);
    let key_length = key.len();
    let key_start = if_told(0 < key_length, e.start + 2);
    let has_id = kind::has_id(e.kind);
    let id_start = if_told(has_id, e.start + e.offset);
    Some(Described {
        kind: e.kind,
        start: e.start,
        length: e.length,
        key_start,
        key_length,
        has_id,
        id_start,
        id_length: e.id_length,
        quoted: e.quoted,
    })
}

// Whether entry n is there, and has this key and an ID that means this.
pub fn is_under(h: &[u8], table: &[u64], form: Form, n: usize, key: &[u8], id: &[u8]) -> bool
    ensures { result ≡ is_under form h.now table.now key.now id.now n }
{
    let Some(e) = shown::entry_at(h, table, form, n) else {
        return false;
    };
    if !kind::has_id(e.kind) {
        return false;
    }
    bytes::same(key_of(h, e), key) && string::same_meaning(part::id_part(h, e), e.quoted, id, false)
}
