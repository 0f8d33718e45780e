// Whether a line stands as the house form writes it, so that it can be copied.
ghost use Rattle.std.specs.Prelude.{false, true, ◌≡◌};
ghost use Rattle.rules.specs.Known.{INFO, FILTER, contig};
ghost use Rattle.records.specs.Formats.{version_of};
ghost use Rattle.records.specs.Keys.{kind_by};
ghost use Rattle.records.specs.declared.key.MapKey.TheVariants.{Other};
ghost use Rattle.records.specs.Tags.{after_id};
ghost use Rattle.forms.specs.declared.formed.Passed.TheVariants.{More};
ghost use Rattle.forms.specs.Forms.{shown_value};
ghost use Rattle.forms.specs.Formed.{Spells, Passes, Follows, FollowsRows, InFormFrom, is_telling, telling, BareMap, FormedMap, FormedLine};

use crate::quoting;
use records::file_format::FileFormat;
use records::key;
use records::key::{MapContext, MapKey};
use values::cursor::Cursor;
use values::{bytes, integer};

// Past a field that stands as the form writes it: where the next one stands, or it was the last one. Or the field has another name, or
// does not stand so.
#[derive(Clone, Copy)]
enum Passed {
    More(Cursor),
    Done,
    Other,
    Failed,
}

// Whether the form has the text s where it writes an integer as its number.
fn is_plain(s: &[u8]) -> bool
    ensures { result ≡ true → shown_value true s.now ≡ s.now }
{
    match integer::parse_u64(s) {
        Some((_, plain)) => plain,
        None => true,
    }
}

// Whether the form spells a value so; `number`: it writes an integer as its number.
fn is_spelled(name: &[u8], value: &[u8], quoted: bool, number: bool) -> bool
    ensures { Spells name.now number quoted value.now result }
{
    if quoted {
        return !number && quoting::needs_quotes(name, value, quoted, false);
    }
    !bytes::same(name, b"Description") && (!number || is_plain(value))
}

// The field at the cursor, if it has this name.
fn pass(s: &[u8], c: Cursor, name: &[u8], number: bool) -> Passed
    ensures { Passes name.now number s.now c.at result }
{
    let from = c.at;
    let Some((equals, text, past)) = c.split_field(s, false) else {
        return Passed::Failed;
    };
    if !bytes::same(bytes::part(s, from, equals), name) {
        return Passed::Other;
    }
    let value = bytes::part(s, text.start, text.end);
    if !is_spelled(name, value, text.quoted, number) {
        return Passed::Failed;
    }
    match past.consume_separator(s) {
        Some(d) => Passed::More(d),
        None => Passed::Done,
    }
}

// The same, and a field of another name is not passed.
fn pass_optional(s: &[u8], c: Cursor, name: &[u8], number: bool) -> Passed
    ensures { Follows name.now number s.now (More c) result }
{
    match pass(s, c, name, number) {
        Passed::More(d) => Passed::More(d),
        Passed::Done => Passed::Done,
        Passed::Other => Passed::More(c),
        Passed::Failed => Passed::Failed,
    }
}

// The next field, if there is one and it has this name.
fn pass_next(s: &[u8], p: Passed, name: &[u8], number: bool) -> Passed
    ensures { Follows name.now number s.now p result }
{
    match p {
        Passed::More(c) => pass_optional(s, c, name, number),
        Passed::Done => Passed::Done,
        Passed::Other | Passed::Failed => Passed::Failed,
    }
}

fn pass_filter(s: &[u8], p: Passed) -> Passed
    ensures { FollowsRows (after_id FILTER) s.now p result }
{
    let a = pass_next(s, p, b"Description", false);
    pass_next(s, a, b"IDX", true)
}

// INFO and FORMAT.
fn pass_typed(s: &[u8], p: Passed) -> Passed
    ensures { FollowsRows (after_id INFO) s.now p result }
{
    let a = pass_next(s, p, b"Number", true);
    let b = pass_next(s, a, b"Type", false);
    let d = pass_next(s, b, b"Description", false);
    pass_next(s, d, b"IDX", true)
}

fn pass_contig(s: &[u8], p: Passed) -> Passed
    ensures { FollowsRows (after_id contig) s.now p result }
{
    let a = pass_next(s, p, b"length", true);
    let b = pass_next(s, a, b"md5", false);
    let d = pass_next(s, b, b"URL", false);
    pass_next(s, d, b"IDX", true)
}

// The known fields after the ID, in the table's order.
fn pass_known(s: &[u8], key: MapKey, p: Passed) -> Passed
    ensures { FollowsRows (after_id (kind_by key)) s.now p result }
{
    match key {
        MapKey::Info | MapKey::Format => pass_typed(s, p),
        MapKey::Filter => pass_filter(s, p),
        MapKey::AlternativeAllele => pass_next(s, p, b"Description", false),
        MapKey::Contig => pass_contig(s, p),
        MapKey::Meta | MapKey::Pedigree | MapKey::Other => p,
    }
}

// Whether all fields from `start` on are no known ones, and stand so.
fn pass_others(s: &[u8], map: MapContext, start: Cursor) -> bool
    ensures { InFormFrom map s.now start.at result }
{
    let mut c = start;
    while let Some((equals, text, past)) = c.split_field(s, false) {
        let name = bytes::part(s, c.at, equals);
        let key = map.key;
        let tag = key.tag(map.version, name);
        if tag.is_known() {
            return false;
        }
        let value = bytes::part(s, text.start, text.end);
        if !is_spelled(name, value, text.quoted, false) {
            return false;
        }
        let Some(d) = past.consume_separator(s) else {
            return true;
        };
        c = d;
    }
    false
}

fn is_other(key: MapKey) -> bool
    ensures { result ≡ true → key ≡ Other }
{
    matches!(key, MapKey::Other)
}

// Whether a byte is a quote, or past a `,` the first one of ID or Description.
fn is_telling(comma: bool, b: u8) -> bool
    ensures { result ≡ is_telling comma b }
{
    // Kept: `b == b'"' || comma && (b == b'D' || b == b'I')` takes 35 % longer over the bytes of a header.
    if b == b'"' {
        return true;
    }
    if !comma {
        return false;
    }
    if b == b'D' {
        return true;
    }
    b == b'I'
}

fn has_telling(s: &[u8]) -> bool
    ensures { result ≡ telling false s.now }
{
    let mut comma = false;
    for b in s {
        if is_telling(comma, *b) {
            return true;
        }
        comma = *b == b',';
    }
    false
}

// Whether the ID stands first in a map that has no other known fields, and no value is quoted or has to be: told by one look at each byte.
fn is_bare(s: &[u8], map: MapContext) -> bool
    ensures { BareMap map s.now result }
{
    let fields = bytes::part(s, map.start, s.len());
    is_other(map.key) && bytes::starts_with(fields, b"ID=") && !has_telling(fields)
}

// Whether a map's ID stands first, the known fields after it in the table's order, then the others.
fn is_formed_map(s: &[u8], map: MapContext) -> bool
    ensures { FormedMap map s.now result }
{
    if map.brackets {
        return false;
    }
    if is_bare(s, map) {
        return true;
    }
    let first = pass(s, Cursor { at: map.start }, b"ID", false);
    match pass_known(s, map.key, first) {
        Passed::More(c) => pass_others(s, map, c),
        Passed::Done => true,
        Passed::Other | Passed::Failed => false,
    }
}

// Of a map or a text, whether the form's line of s is s. A META from 4.3 is not looked at.
pub fn is_formed(s: &[u8], version: FileFormat) -> bool
    ensures { FormedLine (version_of version) s.now result }
{
    let end = bytes::find(s, 2, b'=');
    let name = bytes::part(s, 2, end);
    if bytes::same(name, b"fileformat") || s.len() <= end {
        return false;
    }
    let value = end + 1;
    if s.len() <= value || s[value] != b'<' {
        return true;
    }
    let key = key::map_key_of(name);
    is_formed_map(s, key.context(version, value + 1))
}
