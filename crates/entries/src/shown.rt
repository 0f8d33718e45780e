// What the calls on an entry number show: parts of the header. The table may be any words, so each entry is tested first.
ghost use Rattle.std.specs.Prelude.{◌≡◌, ◌&&◌, ◌||◌, eqb, leb, length, ◌+◌};
ghost use Rattle.rules.specs.Shown.{says_no_id, counts_in_place, well_formed, nth_field_part};
ghost use Rattle.rules.specs.Map.{fields_at};
ghost use Rattle.entries.specs.Values.{entry_of};
ghost use Rattle.entries.specs.Tables.{words_clear, entry_in, entry_at, shown_entry, shown_id, shown_key};
ghost use Rattle.entries.specs.Shown.{answered, or_refused, key_answered, key_or_refused, entry_meant, bytes_of, Inside, KeyInside};

use crate::entry::Entry;
use crate::form::Form;
use crate::{kind, table};
use values::bytes;
use values::cursor::Cursor;

// A part of the header, or refusal 29: no such entry, no such field, or an entry that is not well formed.
pub type Shown = Option<(usize, usize)>;

// The part of a key, and how many fields follow it; or refusal 29.
pub type KeyShown = Option<(usize, usize, usize)>;

fn has_known_kind(kind: u8) -> bool
    ensures { result ≡ (leb 1 kind && leb kind 10) }
{
    kind::FILE_FORMAT <= kind && kind <= kind::SAMPLE
}

// Only an ID of an other map has a tag, Child or Derived.
fn has_known_tag(kind: u8, tag: u8) -> bool
    ensures { result ≡ (eqb tag 0 || (eqb kind 7 && leb tag 2)) }
{
    tag == 0 || (kind == kind::OTHER_MAP && tag <= 2)
}

fn says_no_id(e: Entry) -> bool
    ensures { result ≡ says_no_id (entry_of e) }
{
    e.offset == 0 && e.id_length == 0 && !e.quoted && e.tag == 0
}

// A key is counted of records alone, and fields of maps.
fn has_due_counts(e: Entry) -> bool
    ensures { result ≡ counts_in_place (entry_of e) }
{
    kind::has_id(e.kind)
        || (e.field_count == 0 && (e.kind <= kind::OTHER_TEXT || e.key_length == 0))
}

// Whether `length` bytes from `start` on are among `size`.
fn lies_inside(size: usize, start: usize, length: usize) -> bool
    ensures { result ≡ leb (start + length) size }
{
    start <= size && length <= size - start
}

// `size`: the header's length.
fn is_well_formed(size: usize, e: Entry) -> bool
    ensures { result ≡ well_formed size (entry_of e) }
{
    if !lies_inside(size, e.start, e.length) {
        return false;
    }
    if !lies_inside(e.length, e.offset, e.id_length) {
        return false;
    }
    // Most entries have an ID, and of these only the tag is left to be looked at.
    if kind::has_id(e.kind) {
        return has_known_tag(e.kind, e.tag);
    }
    if !has_known_kind(e.kind) {
        return false;
    }
    if !says_no_id(e) {
        return false;
    }
    has_due_counts(e)
}

// Whether entry n, from 0, lies in the table and is well formed in a header of `size` bytes.
pub fn is_entry(size: usize, table: &[u64], form: Form, n: usize) -> bool
    ensures { result ≡ (words_clear form table.now n && well_formed size (entry_in form table.now n)) }
{
    table::is_clear(table, form, n) && is_well_formed(size, table::get(table, form, n))
}

// Entry n, from 0, if it lies in the table and is well formed.
pub fn entry_at(h: &[u8], table: &[u64], form: Form, n: usize) -> Option<Entry>
    ensures { entry_meant result ≡ entry_at form h.now table.now n }
{
    if !table::is_clear(table, form, n) {
        return None;
    }
    let e = table::get(table, form, n);
    if is_well_formed(h.len(), e) {
        return Some(e);
    }
    None
}

// The line of entry n, or the sample name.
pub fn entry(h: &[u8], table: &[u64], form: Form, n: usize) -> Shown
    ensures shown { answered result ≡ or_refused (shown_entry form h.now table.now n) }
    ensures inside { Inside (length h.now) result }
{
    let Some(e) = entry_at(h, table, form, n) else {
        return None;
    };
    let start = e.start;
    let end = start + e.length;
    Some((start, end))
}

// The ID's text of entry n, without quotes.
pub fn id(h: &[u8], table: &[u64], form: Form, n: usize) -> Shown
    ensures shown { answered result ≡ or_refused (shown_id form h.now table.now n) }
    ensures inside { Inside (length h.now) result }
{
    let Some(e) = entry_at(h, table, form, n) else {
        return None;
    };
    if !kind::has_id(e.kind) {
        return None;
    }
    let start = e.start + e.offset;
    let end = start + e.id_length;
    Some((start, end))
}

// The key of entry n, after its `##`, and the number of its fields. The line is not read; the first form does not tell them.
pub fn key(h: &[u8], table: &[u64], form: Form, n: usize) -> KeyShown
    ensures shown { key_answered result ≡ key_or_refused (shown_key form h.now table.now n) }
    ensures inside { KeyInside (length h.now) result }
{
    let limits = form.limits();
    let Some(e) = entry_at(h, table, form, n) else {
        return None;
    };
    if !limits.counted {
        return None;
    }
    if kind::OTHER_TEXT < e.kind {
        return None;
    }
    if !lies_inside(e.length, 2, e.key_length) {
        return None;
    }
    let start = e.start + 2;
    let end = start + e.key_length;
    let fields = e.field_count;
    Some((start, end, fields))
}

// The bytes of a part, none where it was refused.
pub fn bytes_of(h: &[u8], shown: Shown) -> &[u8]
    ensures { result.now ≡ bytes_of h.now shown }
{
    match shown {
        Some((start, end)) => bytes::part(h, start, end),
        None => &h[..0],
    }
}

// Field n, from 0, of the fields that stand at `at`, parted by `,`. `brackets`: the map is a META, from 4.3.
pub fn nth_field(s: &[u8], at: usize, brackets: bool, n: usize) -> Shown
    ensures shown { answered result ≡ or_refused (nth_field_part at (fields_at brackets s.now at) n) }
    ensures inside { Inside (length s.now) result }
{
    let mut c = Cursor { at };
    for _i in 0..n {
        let Some((_, _, next)) = c.split_field(s, brackets) else {
            return None;
        };
        let Some(d) = next.consume_separator(s) else {
            return None;
        };
        c = d;
    }
    let start = c.at;
    let Some((_, _, next)) = c.split_field(s, brackets) else {
        return None;
    };
    let end = next.at;
    Some((start, end))
}
