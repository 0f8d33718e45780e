// A record of one or two bare fields, of which the first is its ID, as those of cells and contigs mostly are: read in one walk, with
// nothing kept.
ghost use Rattle.std.specs.Prelude.{◌≡◌};
ghost use Rattle.values.specs.Integer.{u64_read};
ghost use Rattle.records.specs.Quick.{quick_key, is_plainly, ReadsPlain, FitsContig, IsLast, IsFollowed, ReadsQuickMap, ReadsQuickKey, ReadsQuick};

use crate::key::MapKey;
use crate::tag::Tag;
use crate::{key, map, tag};
use values::cursor::Cursor;
use values::{bytes, integer, string};

// Whether it is a contig, where its value stands, where its ID ends, and how many fields it has.
pub type QuickRead = Option<(bool, usize, usize, usize)>;

// The key of a map that was read quickly.
pub fn quick_key(contig: bool) -> MapKey
    ensures { result ≡ quick_key contig }
{
    if contig {
        return MapKey::Contig;
    }
    MapKey::Other
}

fn is_plainly(s: &[u8]) -> bool
    ensures { result ≡ is_plainly (u64_read s.now) }
{
    match integer::parse_u64(s) {
        Some((_, plain)) => plain,
        None => false,
    }
}

// Whether a field of this name and bare value may follow the ID of a contig, and is plainly spelled.
fn fits_contig(name: &[u8], text: &[u8]) -> bool
    ensures { FitsContig name.now text.now result }
{
    match tag::contig_tag(name) {
        Tag::Id | Tag::Number | Tag::ValueType | Tag::Description => false,
        Tag::Length | Tag::Idx => is_plainly(text),
        Tag::Md5 | Tag::Url | Tag::Other => true,
    }
}

// A field whose value is bare, where no value may be bracketed.
// The place of its `=`, and past the value.
fn plain_field(s: &[u8], c: Cursor) -> Option<(usize, usize)>
    ensures { ReadsPlain s.now c.at result }
{
    let Some((equals, value)) = c.parse_key(s) else {
        return None;
    };
    let start = value.at;
    if s.len() <= start || s[start] == b'"' {
        return None;
    }
    Some((equals, string::find_stop(s, start)))
}

// Whether the field that stands here is bare, not the ID, plainly spelled and the last.
fn is_last(s: &[u8], at: usize, contig: bool) -> bool
    ensures { IsLast contig s.now at result }
{
    let Some((equals, end)) = plain_field(s, Cursor { at }) else {
        return false;
    };
    if !map::consume_suffix(s, Cursor { at: end }) {
        return false;
    }
    let name = bytes::part(s, at, equals);
    if bytes::same(b"ID", name) {
        return false;
    }
    if !contig {
        return true;
    }
    fits_contig(name, bytes::part(s, equals + 1, end))
}

// Whether an ID that ends here is followed by one such field.
fn is_followed(s: &[u8], end: usize, contig: bool) -> bool
    ensures { IsFollowed contig s.now end result }
{
    end < s.len() && s[end] == b',' && is_last(s, end + 1, contig)
}

// The value that stands at `at`.
// Where the ID of a map ends, and how many fields it has.
fn read_map(s: &[u8], at: usize, contig: bool) -> Option<(usize, usize)>
    ensures { ReadsQuickMap contig s.now at result }
{
    if !bytes::starts_with(bytes::part(s, at, s.len()), b"<ID=") {
        return None;
    }
    let start = at + 4;
    if s.len() <= start || s[start] == b'"' {
        return None;
    }
    let end = string::find_stop(s, start);
    if map::consume_suffix(s, Cursor { at: end }) {
        return Some((end, 1));
    }
    if is_followed(s, end, contig) {
        return Some((end, 2));
    }
    None
}

// Whether a key under which the ID alone is required is `contig`, and where the value stands.
fn read_key(s: &[u8]) -> Option<(bool, usize)>
    ensures { ReadsQuickKey s.now result }
{
    let end = bytes::find(s, 2, b'=');
    if end == 2 || s.len() <= end {
        return None;
    }
    let name = bytes::part(s, 2, end);
    let at = end + 1;
    if bytes::same(name, b"fileformat") {
        return None;
    }
    match key::map_key_of(name) {
        MapKey::Contig => Some((true, at)),
        MapKey::Other => Some((false, at)),
        _ => None,
    }
}

pub fn read_quick(s: &[u8]) -> QuickRead
    ensures { ReadsQuick s.now result }
{
    if !bytes::starts_with(s, b"##") {
        return None;
    }
    let Some((contig, at)) = read_key(s) else {
        return None;
    };
    let Some((end, fields)) = read_map(s, at, contig) else {
        return None;
    };
    Some((contig, at, end, fields))
}
