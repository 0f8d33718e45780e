// The key of a record that is a map or a text: which kind of map it is.
ghost use Rattle.std.specs.Prelude.{◌≡◌};
ghost use Rattle.rules.specs.Known.{is_info, is_format, is_typed, always_map};
ghost use Rattle.rules.specs.Map.{is_meta};
ghost use Rattle.records.specs.Formats.{version_of};
ghost use Rattle.records.specs.Keys.{case_bytes, untyped_keys, among, key_named, context_of, kind_by, is_meta_key, is_pedigree_key};
ghost use Rattle.rules.specs.Entry.{map_kind};

use crate::file_format::FileFormat;
use values::bytes;

#[derive(Clone, Copy)]
pub enum MapKey {
    Info,
    Filter,
    Format,
    AlternativeAllele,
    Contig,
    Meta,
    Pedigree,
    Other,
}

// The keys that are not typed kinds of maps.
fn untyped_key_of(s: &[u8]) -> MapKey
    ensures { result ≡ among untyped_keys s.now }
{
    if bytes::same(s, b"META") {
        return MapKey::Meta;
    }
    if bytes::same(s, b"PEDIGREE") {
        return MapKey::Pedigree;
    }
    MapKey::Other
}

pub fn map_key_of(s: &[u8]) -> MapKey
    ensures { result ≡ key_named s.now }
{
    if bytes::same(s, b"INFO") {
        return MapKey::Info;
    }
    if bytes::same(s, b"FORMAT") {
        return MapKey::Format;
    }
    if bytes::same(s, b"contig") {
        return MapKey::Contig;
    }
    if bytes::same(s, b"FILTER") {
        return MapKey::Filter;
    }
    if bytes::same(s, b"ALT") {
        return MapKey::AlternativeAllele;
    }
    untyped_key_of(s)
}

// What the fields of a map are read by: its key, the version, whether the value of Values may be bracketed, and where the first
// field stands.
#[derive(Clone, Copy)]
pub struct MapContext {
    pub key: MapKey,
    pub version: FileFormat,
    pub brackets: bool,
    pub start: usize,
}

impl MapKey {
    // The typed kinds of maps.
    pub fn is_typed(self) -> bool
        ensures { result ≡ is_typed (case_bytes self) }
    {
        !matches!(self, MapKey::Meta | MapKey::Pedigree | MapKey::Other)
    }

    fn is_meta(self) -> bool
        ensures { result ≡ is_meta_key self }
    {
        matches!(self, MapKey::Meta)
    }

    pub fn is_pedigree(self) -> bool
        ensures { result ≡ is_pedigree_key self }
    {
        matches!(self, MapKey::Pedigree)
    }

    pub fn is_info(self) -> bool
        ensures { result ≡ is_info (kind_by self) }
    {
        matches!(self, MapKey::Info)
    }

    pub fn is_format(self) -> bool
        ensures { result ≡ is_format (kind_by self) }
    {
        matches!(self, MapKey::Format)
    }

    // META and PEDIGREE are always maps, and need a field.
    pub fn is_always_map(self) -> bool
        ensures { result ≡ always_map (case_bytes self) }
    {
        self.is_meta() || self.is_pedigree()
    }

    // Whether the value of Values may be bracketed: in a META, from 4.3.
    pub fn has_brackets(self, version: FileFormat) -> bool
        ensures { result ≡ is_meta (version_of version) (case_bytes self) }
    {
        self.is_meta() && !version.lt(FileFormat::V4_3)
    }

    // The kind of an entry of a map.
    pub fn kind(self) -> u8
        ensures { result ≡ map_kind (kind_by self) }
    {
        match self {
            MapKey::Info => 2,
            MapKey::Filter => 3,
            MapKey::Format => 4,
            MapKey::AlternativeAllele => 5,
            MapKey::Contig => 6,
            MapKey::Meta | MapKey::Pedigree | MapKey::Other => 7,
        }
    }

    // The fields of a map with this key stand at `start`.
    pub fn context(self, version: FileFormat, start: usize) -> MapContext
        ensures { result ≡ context_of self version start }
    {
        let brackets = self.has_brackets(version);
        MapContext {
            key: self,
            version,
            brackets,
            start,
        }
    }
}
