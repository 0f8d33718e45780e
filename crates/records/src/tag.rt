// The table of known fields: what the key of a field names in a map of its kind.
ghost use Rattle.std.specs.Prelude.{◌≡◌, ◌&&◌};
ghost use Rattle.values.specs.Bytes.{ascii, same};
ghost use Rattle.rules.specs.Version.{v4_3, earlier};
ghost use Rattle.rules.specs.Known.{INFO, FILTER, ALT, contig, row_named, name_of, tag_of};
ghost use Rattle.rules.specs.Map.{is_some, known_named};
ghost use Rattle.records.specs.Formats.{version_of};
ghost use Rattle.records.specs.Keys.{case_bytes, kind_by};
ghost use Rattle.records.specs.Tags.{tag_row, is_kept, after_id};

use crate::file_format::FileFormat;
use crate::key::MapKey;
use values::bytes;

// Other: the field is no known one.
#[derive(Clone, Copy)]
pub enum Tag {
    Id,
    Number,
    ValueType,
    Description,
    Length,
    Md5,
    Url,
    Idx,
    Other,
}

impl Tag {
    // The required fields are kept while a map is read.
    pub fn is_kept(self) -> bool
        ensures { result ≡ is_kept self }
    {
        matches!(
            self,
            Tag::Id | Tag::Number | Tag::ValueType | Tag::Description
        )
    }

    pub fn is_known(self) -> bool
        ensures { result ≡ is_some (tag_row self) }
    {
        !matches!(self, Tag::Other)
    }
}

// Which name stands for the ID: 0 ID, 1 Child, 2 Derived.
// Kept: what may not change: it is the number that an entry's words hold, where 3 stands for no name.
pub fn id_tag(field: &[u8]) -> u8
    ensures { result ≡ tag_of field.now }
{
    if bytes::same(field, b"Child") {
        return 1;
    }
    if bytes::same(field, b"Derived") {
        return 2;
    }
    0
}

// The fields after the ID.

fn alternative_allele_tag(field: &[u8]) -> Tag
    ensures { tag_row result ≡ row_named field.now (after_id ALT) }
{
    if bytes::same(b"Description", field) {
        return Tag::Description;
    }
    Tag::Other
}

fn filter_tag(field: &[u8]) -> Tag
    ensures { tag_row result ≡ row_named field.now (after_id FILTER) }
{
    if bytes::same(b"Description", field) {
        return Tag::Description;
    }
    if bytes::same(b"IDX", field) {
        return Tag::Idx;
    }
    Tag::Other
}

// INFO and FORMAT.
fn typed_tag(field: &[u8]) -> Tag
    ensures { tag_row result ≡ row_named field.now (after_id INFO) }
{
    if bytes::same(b"Number", field) {
        return Tag::Number;
    }
    if bytes::same(b"Type", field) {
        return Tag::ValueType;
    }
    filter_tag(field)
}

pub fn contig_tag(field: &[u8]) -> Tag
    ensures { tag_row result ≡ row_named field.now (after_id contig) }
{
    if bytes::same(b"length", field) {
        return Tag::Length;
    }
    if bytes::same(b"md5", field) {
        return Tag::Md5;
    }
    if bytes::same(b"URL", field) {
        return Tag::Url;
    }
    if bytes::same(b"IDX", field) {
        return Tag::Idx;
    }
    Tag::Other
}

impl MapKey {
    fn tag_after_id(self, field: &[u8]) -> Tag
        ensures { tag_row result ≡ row_named field.now (after_id (kind_by self)) }
    {
        match self {
            MapKey::Info | MapKey::Format => typed_tag(field),
            MapKey::Filter => filter_tag(field),
            MapKey::AlternativeAllele => alternative_allele_tag(field),
            MapKey::Contig => contig_tag(field),
            MapKey::Meta | MapKey::Pedigree | MapKey::Other => Tag::Other,
        }
    }

    // Child and Derived name the ID of a PEDIGREE, before 4.3.
    fn has_lineage(self, version: FileFormat) -> bool
        ensures { result ≡ (same (case_bytes self) (ascii "PEDIGREE") && earlier (version_of version) v4_3) }
    {
        self.is_pedigree() && version.lt(FileFormat::V4_3)
    }

    fn names_id(self, version: FileFormat, field: &[u8]) -> bool
        ensures { result ≡ same (ascii "ID") (name_of (version_of version) (case_bytes self) field.now) }
    {
        bytes::same(b"ID", field) || self.has_lineage(version) && id_tag(field) != 0
    }

    pub fn tag(self, version: FileFormat, field: &[u8]) -> Tag
        ensures { tag_row result ≡ known_named (version_of version) (case_bytes self) field.now }
    {
        if self.names_id(version, field) {
            return Tag::Id;
        }
        self.tag_after_id(field)
    }
}
