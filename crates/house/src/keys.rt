// The entries of a key, as they follow one another in the header.
ghost use Rattle.std.specs.Prelude.{◌≡◌, ◌^◌, ◌<◌, ◌≤◌, length};
ghost use Rattle.records.specs.Formats.{version_of};
ghost use Rattle.rules.specs.Known.{typed_keys};
ghost use Rattle.entries.specs.Values.{entry_of};
ghost use Rattle.entries.specs.Tables.{entries_in};
ghost use Rattle.entries.specs.Notes.{bare};
ghost use Rattle.house.specs.Keys.{is_record, is_under, PutsKey, AreFormed, PutsKeys, later_keys, is_typed_record, any_typed, prefix_in, is_other_record, PutsOthers};
ghost use Rattle.house.specs.Links.{SeesKey, PutsLinked, PutsFirst, SkipsUnder, SkipsSame, PutsOthersBy};

use crate::progress::Progress;
use crate::{links, many, progress, run};
use entries::entry::Entry;
use entries::form::Form;
use entries::{kind, part, table};
use forms::formed;
use records::file_format::FileFormat;
use values::bytes;

// Whether an entry is a map or a text.
pub fn is_record(e: Entry) -> bool
    ensures { result ≡ is_record (entry_of e) }
{
    kind::INFO <= e.kind && e.kind <= kind::OTHER_TEXT
}

// Whether an entry is a record whose line begins with the prefix, `##key=`.
pub fn is_under(h: &[u8], e: Entry, prefix: &[u8]) -> bool
    ensures { result ≡ is_under h.now prefix.now (entry_of e) }
{
    // Kept: with `starts_with` a walk over the keys of one slot is slower, since these mostly differ at their ends.
    is_record(e) && bytes::same(bytes::part(part::line_part(h, e), 0, prefix.len()), prefix)
}

// The lines of all entries under the key that the prefix names.
pub fn put_key(
    h: &[u8],
    kept: &[u64],
    form: Form,
    prefix: &[u8],
    version: FileFormat,
    out: &mut [u8],
    given: &[u8],
    s: Progress,
) -> Progress
    ensures { PutsKey (version_of version) h.now (entries_in form kept.now) prefix.now given.now out.old s result
        out.new }
{
    let mut progress = s;
    let mut k = 0;
    // Kept: a `for` is no plainer, since a turn passes a whole run of entries.
    while k < table::count(kept, form) {
        let e = table::get(kept, form, k);
        if is_under(h, e, prefix) {
            let run = run::find_run(h, kept, form, prefix, k, progress.limit, progress.formed);
            let text = bytes::part(h, e.start, run.stop);
            progress = progress::put_run(text, run.end - k, version, out, given, progress);
            k = run.end;
        } else {
            k += 1;
        }
    }
    progress
}

// Whether the line of each record stands as the form writes it.
pub fn are_formed(h: &[u8], kept: &[u64], form: Form, version: FileFormat) -> bool
    ensures { AreFormed (version_of version) h.now (entries_in form kept.now) result }
{
    for k in 0..table::count(kept, form) {
        let e = table::get(kept, form, k);
        if is_record(e) && !formed::is_formed(part::line_part(h, e), version) {
            return false;
        }
    }
    true
}

// FORMAT, ALT and contig.
fn put_later_typed(
    h: &[u8],
    kept: &[u64],
    form: Form,
    version: FileFormat,
    out: &mut [u8],
    given: &[u8],
    s: Progress,
) -> Progress
    ensures { PutsKeys (version_of version) h.now (entries_in form kept.now) later_keys given.now out.old s result out.new }
{
    let format = put_key(h, kept, form, b"##FORMAT=", version, out, given, s);
    let alt = put_key(h, kept, form, b"##ALT=", version, out, given, format);
    put_key(h, kept, form, b"##contig=", version, out, given, alt)
}

fn is_typed(e: Entry) -> bool
    ensures { result ≡ is_typed_record (entry_of e) }
{
    kind::INFO <= e.kind && e.kind < kind::OTHER_MAP
}

fn has_typed(kept: &[u64], form: Form) -> bool
    ensures { result ≡ any_typed (entries_in form kept.now) }
{
    for k in 0..table::count(kept, form) {
        if is_typed(table::get(kept, form, k)) {
            return true;
        }
    }
    false
}

// The typed keys, in the form's order: a probe's header has none.
pub fn put_typed(
    h: &[u8],
    kept: &[u64],
    form: Form,
    version: FileFormat,
    out: &mut [u8],
    given: &[u8],
    s: Progress,
) -> Progress
    ensures { PutsKeys (version_of version) h.now (entries_in form kept.now) typed_keys given.now out.old s result out.new }
{
    if !has_typed(kept, form) {
        return s;
    }
    let info = put_key(h, kept, form, b"##INFO=", version, out, given, s);
    let filter = put_key(h, kept, form, b"##FILTER=", version, out, given, info);
    put_later_typed(h, kept, form, version, out, given, filter)
}

// The line through its first `=`.
pub fn prefix_part(h: &[u8], e: Entry) -> &[u8]
    ensures { result.now ≡ prefix_in h.now (entry_of e) }
{
    let line = part::line_part(h, e);
    let end = bytes::find(line, 0, b'=');
    if line.len() <= end {
        return line;
    }
    bytes::part(line, 0, end + 1)
}

// Whether an entry's key is not typed.
pub fn is_other(e: Entry) -> bool
    ensures { result ≡ is_other_record (entry_of e) }
{
    kind::OTHER_MAP <= e.kind && e.kind <= kind::OTHER_TEXT
}

// Whether a record before number `end` is under the key, whose slot is given.
fn is_seen(
    h: &[u8],
    kept: &[u64],
    form: Form,
    prefix: &[u8],
    slot: usize,
    heads: &[u32],
    links: &[u32],
    end: usize,
) -> bool
    ensures { SeesKey form h.now kept.now prefix.now slot heads.now links.now end result }
{
    let mut k = links::number_at(heads, slot);
    // Kept: a `for` is no plainer, since the links tell the next number.
    while k < end {
        let e = table::get(kept, form, k);
        k += 1;
        if is_under(h, e, prefix) {
            return true;
        }
        k = links::pass_other(h, e, slot, heads, links, k);
    }
    false
}

// The lines of the entries under a key that is not typed, from number `first` on.
fn put_linked(
    h: &[u8],
    kept: &[u64],
    form: Form,
    prefix: &[u8],
    slot: usize,
    heads: &[u32],
    links: &[u32],
    first: usize,
    version: FileFormat,
    out: &mut [u8],
    given: &[u8],
    s: Progress,
) -> Progress
    ensures { PutsLinked form (version_of version) h.now kept.now prefix.now slot heads.now links.now first
        given.now out.old s result out.new }
{
    let mut progress = s;
    let mut k = first;
    // Kept: a `for` is no plainer, since the links and the runs tell the next number.
    while k < table::count(kept, form) {
        let e = table::get(kept, form, k);
        let near = k + 1;
        if is_under(h, e, prefix) {
            let next = links::next_of(slot, heads, links, near);
            if near < next {
                let line = part::line_part(h, e);
                progress = progress::put_entry(line, version, out, given, progress);
                k = next;
            } else {
                let run = run::find_run(h, kept, form, prefix, k, progress.limit, progress.formed);
                let text = bytes::part(h, e.start, run.stop);
                progress = progress::put_run(text, run.end - k, version, out, given, progress);
                k = links::next_of(slot, heads, links, run.end);
            }
        } else {
            k = links::pass_other(h, e, slot, heads, links, near);
        }
    }
    progress
}

// The lines of the key of entry number k, if that is not typed and no entry before is under it.
fn put_if_first(
    h: &[u8],
    kept: &[u64],
    form: Form,
    heads: &[u32],
    links: &[u32],
    k: usize,
    version: FileFormat,
    out: &mut [u8],
    given: &[u8],
    s: Progress,
) -> Progress
    ensures { PutsFirst form (version_of version) h.now kept.now heads.now links.now k given.now out.old s result
        out.new }
{
    let e = table::get(kept, form, k);
    if !is_other(e) {
        return s;
    }
    let prefix = prefix_part(h, e);
    let slot = links::slot_of(heads.len(), prefix);
    if is_seen(h, kept, form, prefix, slot, heads, links, k) {
        return s;
    }
    put_linked(
        h, kept, form, prefix, slot, heads, links, k, version, out, given, s,
    )
}

// Past the entries under the key that follow one another, from number `start` on.
fn skip_under(h: &[u8], kept: &[u64], form: Form, prefix: &[u8], start: usize) -> usize
    ensures { SkipsUnder form h.now kept.now prefix.now start result }
{
    let end = table::count(kept, form);
    for k in start..end {
        if !is_under(h, table::get(kept, form, k), prefix) {
            return k;
        }
    }
    end.max(start)
}

// Past an entry, and where none are linked past those after it that are under its key, if that is not typed: none of these is the first of a
// key. Linked ones are as soon seen not to be.
fn skip_same(h: &[u8], kept: &[u64], form: Form, heads: &[u32], k: usize) -> usize
    requires { k < length kept.now }
    ensures { SkipsSame form h.now kept.now k result }
{
    let next = k + 1;
    if 0 < heads.len() {
        return next;
    }
    let e = table::get(kept, form, k);
    if !is_other(e) {
        return next;
    }
    skip_under(h, kept, form, prefix_part(h, e), next)
}

// The other keys, by first appearance, where the entries are linked.
fn put_others_by(
    h: &[u8],
    kept: &[u64],
    form: Form,
    version: FileFormat,
    heads: &[u32],
    links: &[u32],
    out: &mut [u8],
    given: &[u8],
    s: Progress,
) -> Progress
    ensures { PutsOthersBy form (version_of version) h.now kept.now heads.now links.now given.now out.old s result
        out.new }
{
    let mut progress = s;
    let mut k = 0;
    // Kept: a `for` is no plainer, since a turn passes all entries of a key that follow one another.
    while k < table::count(kept, form) {
        progress = put_if_first(
            h, kept, form, heads, links, k, version, out, given, progress,
        );
        k = skip_same(h, kept, form, heads, k);
    }
    progress
}

// The same, where `heads` and `links` are to be filled.
fn put_others_linked(
    h: &[u8],
    kept: &[u64],
    form: Form,
    version: FileFormat,
    heads: &mut [u32],
    links: &mut [u32],
    out: &mut [u8],
    given: &[u8],
    s: Progress,
) -> Progress
    ensures { PutsOthers (version_of version) h.now (entries_in form kept.now) given.now out.old s result out.new }
{
    links::link_all(h, kept, form, heads, links);
    put_others_by(h, kept, form, version, heads, links, out, given, s)
}

// The other keys where there are more entries than links. No header that was read has so many that a note can't hold their numbers. It is made
// no part of its caller, as `put_others_among`.
#[inline(never)]
fn put_others_noted(
    h: &[u8],
    kept: &mut [u64],
    form: Form,
    version: FileFormat,
    out: &mut [u8],
    given: &[u8],
    s: Progress,
) -> Progress
    requires { bare kept.old ≡ kept.old }
    ensures lines { PutsOthers (version_of version) h.now (entries_in form kept.old) given.now out.old s result out.new }
    ensures table { kept.new ≡ kept.old }
{
    if 0x80_0000 <= table::count(kept, form) {
        return put_others_few(h, kept, form, version, out, given, s);
    }
    many::put_linked(h, kept, form, version, out, given, s)
}

// The same, with N heads and links of its own, of which the first are heads. It is made no part of its caller: else all sizes would be on the
// stack of every header.
#[inline(never)]
fn put_others_among<const N: usize>(
    heads: usize,
    h: &[u8],
    kept: &[u64],
    form: Form,
    version: FileFormat,
    out: &mut [u8],
    given: &[u8],
    s: Progress,
) -> Progress
    requires size { N < 2 ^ 32 }
    requires heads { heads ≤ N }
    ensures { PutsOthers (version_of version) h.now (entries_in form kept.now) given.now out.old s result out.new }
{
    let mut own = [0xFFFF_FFFFu32; N];
    let (heads, links) = own.split_at_mut(heads);
    put_others_linked(h, kept, form, version, heads, links, out, given, s)
}

// Few entries are looked through in less time than it takes to link them.
fn put_others_few(
    h: &[u8],
    kept: &[u64],
    form: Form,
    version: FileFormat,
    out: &mut [u8],
    given: &[u8],
    s: Progress,
) -> Progress
    ensures { PutsOthers (version_of version) h.now (entries_in form kept.now) given.now out.old s result out.new }
{
    let unlinked = [0u32; 0];
    put_others_by(h, kept, form, version, &unlinked, &unlinked, out, given, s)
}

// The other keys, by first appearance.
pub fn put_others(
    h: &[u8],
    kept: &mut [u64],
    form: Form,
    version: FileFormat,
    out: &mut [u8],
    given: &[u8],
    s: Progress,
) -> Progress
    requires { bare kept.old ≡ kept.old }
    ensures lines { PutsOthers (version_of version) h.now (entries_in form kept.old) given.now out.old s result out.new }
    ensures table { kept.new ≡ kept.old }
{
    if kept.len() <= 128 {
        return put_others_few(h, kept, form, version, out, given, s);
    }
    if kept.len() < 2048 {
        return put_others_among::<2048>(1024, h, kept, form, version, out, given, s);
    }
    if kept.len() < 32768 {
        return put_others_among::<32768>(16384, h, kept, form, version, out, given, s);
    }
    if table::count(kept, form) < 98304 {
        return put_others_among::<229376>(131072, h, kept, form, version, out, given, s);
    }
    put_others_noted(h, kept, form, version, out, given, s)
}
