// What a new line clashes with among the entries kept so far.
ghost use Rattle.std.specs.Prelude.{◌≡◌, leb, length};
ghost use Rattle.values.specs.Value.{meaning};
ghost use Rattle.values.specs.Marks.{meet};
ghost use Rattle.rules.specs.Shown.{id_meaning};
ghost use Rattle.entries.specs.Values.{entry_of};
ghost use Rattle.entries.specs.Tables.{entries_in};
ghost use Rattle.ids.specs.Clashes.{last_of, is_of_key, MayEqual, Candidate, key_seen, id_seen};
ghost use Rattle.ids.specs.Names.{prefix_hash, id_hash, id_end};
ghost use Rattle.ids.specs.Ahead.{quoted_noted};
ghost use Rattle.ids.specs.Marks.{mark_under, IdSpared, KeySpared, Spared, NextNear, mark_id, mark_key, mark_names, mark_noted, key_found, id_found, mixed_found, twice_found, meet_id, meet_key, clash_of, clash_under};

use crate::{names, notes};
use entries::entry::Entry;
use entries::form::Form;
use entries::{kind, part, table};
use values::{bytes, marks, string};

#[derive(Clone, Copy)]
pub enum Clash {
    TypedId,
    Mixed,
    OtherId,
}

// What is looked for: the kind, the last byte of the ID's text, and whether that stands between quotes.
#[derive(Clone, Copy)]
struct Wanted {
    kind: u8,
    last: u8,
    quoted: bool,
}

// A typed kind has one key; an other record's key is told by its line.
fn is_under(h: &[u8], e: Entry, prefix: &[u8], kind: u8) -> bool
    ensures { result ≡ is_of_key h.now prefix.now kind (entry_of e) }
{
    kind < kind::OTHER_MAP || bytes::starts_with(part::line_part(h, e), prefix)
}

fn last_byte(s: &[u8]) -> u8
    ensures { result ≡ last_of s.now }
{
    s.last().copied().unwrap_or(0)
}

// Few pairs pass: two bare IDs are equal only where their lengths and last bytes are.
fn may_equal(h: &[u8], e: Entry, id: &[u8], wanted: Wanted) -> bool
    ensures { MayEqual h.now (entry_of e) id.now wanted.last wanted.quoted result }
{
    if wanted.quoted || e.quoted {
        return true;
    }
    let other = part::id_part(h, e);
    other.len() == id.len() && (other.len() == 0 || other[other.len() - 1] == wanted.last)
}

// Whether an entry has the kind and the key, and may have the ID: the cheapest test first.
fn is_candidate(h: &[u8], e: Entry, prefix: &[u8], id: &[u8], wanted: Wanted) -> bool
    ensures { Candidate h.now (entry_of e) prefix.now wanted.kind id.now wanted.last wanted.quoted result }
{
    e.kind == wanted.kind && may_equal(h, e, id, wanted) && is_under(h, e, prefix, wanted.kind)
}

// Whether an entry of this kind stands under the key that the prefix names.
fn key_seen(h: &[u8], kept: &[u64], form: Form, prefix: &[u8], kind: u8) -> bool
    ensures { result ≡ key_seen h.now prefix.now kind (entries_in form kept.now) }
{
    for k in 0..table::count(kept, form) {
        let e = table::get(kept, form, k);
        if e.kind == kind && bytes::starts_with(part::line_part(h, e), prefix) {
            return true;
        }
    }
    false
}

// Whether an entry of this kind under this key has an ID of the same meaning.
fn id_seen(
    h: &[u8],
    kept: &[u64],
    form: Form,
    prefix: &[u8],
    kind: u8,
    id: &[u8],
    quoted: bool,
) -> bool
    ensures { result ≡ id_seen h.now prefix.now kind (meaning quoted id.now) (entries_in form kept.now) }
{
    let last = last_byte(id);
    let wanted = Wanted { kind, last, quoted };
    for k in 0..table::count(kept, form) {
        let e = table::get(kept, form, k);
        if is_candidate(h, e, prefix, id, wanted)
            && string::same_meaning(part::id_part(h, e), e.quoted, id, quoted)
        {
            return true;
        }
    }
    false
}

// As `key_seen`, where the marks don't tell it already; `key` is the new entry's key hash.
fn has_key(
    h: &[u8],
    kept: &[u64],
    form: Form,
    marks: &[u64],
    prefix: &[u8],
    key: u64,
    kind: u8,
) -> bool
    ensures { result ≡ key_found h.now (entries_in form kept.now) marks.now prefix.now key kind }
{
    marks::is_met(marks, names::under_hash(key, kind)) && key_seen(h, kept, form, prefix, kind)
}

// The new entry's ID is marked by that.
fn has_id(
    h: &[u8],
    kept: &[u64],
    form: Form,
    marks: &mut [u64],
    prefix: &[u8],
    key: u64,
    new: Entry,
) -> bool
    ensures found { result ≡ id_found h.now (entries_in form kept.now) marks.old prefix.now key (entry_of new) }
    ensures marks { marks.new ≡ meet marks.old (id_hash key new.kind (id_meaning h.now (entry_of new))) }
{
    let id = part::id_part(h, new);
    marks::meet_hash(marks, names::id_hash(h, key, new))
        && id_seen(h, kept, form, prefix, new.kind, id, new.quoted)
}

// Whether a record of the other sort, a text beside a map or a map beside a text, stands under the new one's key.
fn is_mixed(
    h: &[u8],
    kept: &[u64],
    form: Form,
    marks: &[u64],
    prefix: &[u8],
    key: u64,
    new: Entry,
) -> bool
    ensures { result ≡ mixed_found h.now (entries_in form kept.now) marks.now prefix.now key (entry_of new) }
{
    let rival = names::other_sort(new.kind);
    kind::OTHER_MAP <= new.kind && has_key(h, kept, form, marks, prefix, key, rival)
}

// As `has_id`, of a kind that has one.
fn is_twice(
    h: &[u8],
    kept: &[u64],
    form: Form,
    marks: &mut [u64],
    prefix: &[u8],
    key: u64,
    new: Entry,
) -> bool
    ensures found { result ≡ twice_found h.now (entries_in form kept.now) marks.old prefix.now key (entry_of new) }
    ensures marks { marks.new ≡ meet_id h.now key (entry_of new) marks.old }
{
    new.kind <= kind::OTHER_MAP && has_id(h, kept, form, marks, prefix, key, new)
}

fn meet_key(marks: &mut [u64], key: u64, kind: u8)
    ensures { marks.new ≡ meet_key key kind marks.old }
{
    if kind::OTHER_MAP <= kind {
        marks::meet_hash(marks, names::under_hash(key, kind));
    }
}

fn clash_of(kind: u8, twice: bool, mixed: bool) -> Option<Clash>
    ensures { result ≡ clash_of kind twice mixed }
{
    if mixed {
        return Some(Clash::Mixed);
    }
    if !twice {
        return None;
    }
    if kind < kind::OTHER_MAP {
        return Some(Clash::TypedId);
    }
    Some(Clash::OtherId)
}

// What is wrong with a new line beside the entries kept so far, which are marked; it is marked too. `new` is its entry,
// `prefix` its `##key=`. Each part is called here alone, so that the compiler makes it a part of the caller.
pub fn find_clash(
    h: &[u8],
    kept: &[u64],
    form: Form,
    marks: &mut [u64],
    prefix: &[u8],
    new: Entry,
) -> Option<Clash>
    ensures clash { result ≡ clash_under h.now (entries_in form kept.now) marks.old prefix.now (prefix_hash prefix.now new.kind) (entry_of new) }
    ensures marks { marks.new ≡ mark_under h.now (prefix_hash prefix.now new.kind) (entry_of new) marks.old }
{
    let key = names::prefix_hash(prefix, new.kind);
    let mixed = is_mixed(h, kept, form, marks, prefix, key, new);
    let twice = is_twice(h, kept, form, marks, prefix, key, new);
    meet_key(marks, key, new.kind);
    clash_of(new.kind, twice, mixed)
}

// The ID of an entry, where it was noted.
fn mark_id(h: &[u8], e: Entry, notes: &[u64], marks: &mut [u64])
    ensures { marks.new ≡ mark_id h.now notes.now (entry_of e) marks.old }
{
    if !notes::is_text_near(notes, part::id_part(h, e), e.quoted) {
        return;
    }
    let hash = names::id_hash(h, names::key_hash(h, e), e);
    if !notes::is_hash_noted(notes, hash) {
        return;
    }
    marks::meet_hash(marks, hash);
}

// That there is a record of its kind under its key, where that was noted.
fn mark_key(h: &[u8], e: Entry, notes: &[u64], marks: &mut [u64])
    ensures { marks.new ≡ mark_key h.now notes.now (entry_of e) marks.old }
{
    if !notes::is_sort_noted(notes, e.kind) {
        return;
    }
    let hash = names::under_hash(names::key_hash(h, e), e.kind);
    if !notes::is_hash_noted(notes, hash) {
        return;
    }
    marks::meet_hash(marks, hash);
}

// What a line ahead may clash with.
fn mark_names(h: &[u8], e: Entry, notes: &[u64], marks: &mut [u64])
    ensures { marks.new ≡ mark_names h.now notes.now (entry_of e) marks.old }
{
    if e.kind < kind::OTHER_MAP {
        mark_id(h, e, notes, marks);
        return;
    }
    mark_key(h, e, notes, marks);
    if e.kind == kind::OTHER_MAP {
        mark_id(h, e, notes, marks);
    }
}

// Whether an entry's ID lies in the header.
// Kept: tried, with one chain of `&&` `mark_noted` is 4 % slower.
fn lies_inside(h: &[u8], e: Entry) -> bool
    ensures { result ≡ leb (id_end (entry_of e)) (length h.now) }
{
    if h.len() < e.start {
        return false;
    }
    let rest = h.len() - e.start;
    if rest < e.offset {
        return false;
    }
    e.id_length <= rest - e.offset
}

// Whether the ID of an entry may have been noted, where no ID ahead is quoted: as `is_text_near`, with the last bytes read where they stand.
fn is_id_near(h: &[u8], e: Entry, notes: &[u64]) -> bool
    ensures { IdSpared h.now notes.now (entry_of e) result }
{
    e.quoted
        || e.id_length < 8
        || !lies_inside(h, e)
        || marks::is_noted(notes, names::tail_hash(h, e.start + e.offset + e.id_length))
}

fn is_key_near(e: Entry, notes: &[u64]) -> bool
    ensures { KeySpared notes.now (entry_of e) result }
{
    kind::OTHER_MAP <= e.kind && notes::is_sort_noted(notes, e.kind)
}

// Whether a name of an entry may have been noted: a cheap test that most entries fail.
fn is_near(h: &[u8], e: Entry, notes: &[u64]) -> bool
    ensures { Spared h.now notes.now (entry_of e) result }
{
    is_key_near(e, notes) || (e.kind <= kind::OTHER_MAP && is_id_near(h, e, notes))
}

// The first entry from number `first` on of which that holds, or the end; where an ID ahead is quoted, any entry may have its ID.
fn next_near(h: &[u8], kept: &[u64], form: Form, notes: &[u64], quoted: bool, first: usize) -> usize
    requires { quoted ≡ quoted_noted notes.now }
    ensures { NextNear h.now form kept.now notes.now first result }
{
    if quoted {
        return first;
    }
    let end = table::count(kept, form);
    for k in first..end {
        if is_near(h, table::get(kept, form, k), notes) {
            return k;
        }
    }
    end.max(first)
}

// Marks the entries whose names were noted, so that a scan of the table may be left out; where there are no notes, all of them.
pub fn mark_noted(h: &[u8], kept: &[u64], form: Form, notes: &[u64], marks: &mut [u64])
    ensures { marks.new ≡ mark_noted h.now notes.now (entries_in form kept.now) marks.old }
{
    let quoted = notes::is_quoted_noted(notes);
    let mut k: usize = 0;
    // Kept: tried, one `for` over all entries with the test and the marking in it is 38 % slower.
    loop {
        k = next_near(h, kept, form, notes, quoted, k);
        if table::count(kept, form) <= k {
            return;
        }
        let e = table::get(kept, form, k);
        mark_names(h, e, notes, marks);
        k += 1;
    }
}
