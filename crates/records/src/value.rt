// The value of a record, by its key.
ghost use Rattle.std.specs.Prelude.{◌≡◌, drop};
ghost use Rattle.rules.specs.Record.{is_map};
ghost use Rattle.records.specs.Formats.{version_of};
ghost use Rattle.records.specs.Keys.{case_bytes};
ghost use Rattle.records.specs.Maps.{Declared, Full, ParsesMap};
ghost use Rattle.records.specs.Records.{fits, ParsesValue};

use crate::definition::Definition;
use crate::file_format::FileFormat;
use crate::key::MapKey;
use crate::map::{MapRead, Tally};
use crate::refusal::Refusal;
use crate::{definition, map, typed};
use values::bytes;
use values::cursor::Cursor;
use values::string::Text;

// A map has its ID, which name stands for it, and what its fields tell together.
pub type ValueParsed = Result<Option<(Text, u8, Tally)>, Refusal>;

fn is_defined(definition: Definition, n: &[u8], nq: bool, t: &[u8], tq: bool) -> bool
    ensures { result ≡ fits definition n.now nq t.now tq }
{
    match definition {
        None => true,
        Some((x, y)) => { x.is(n, nq) && y.is(t, tq) }
    }
}

fn validate_definition(
    s: &[u8],
    version: FileFormat,
    key: MapKey,
    id: Text,
    number: Text,
    kind: Text,
) -> bool
    ensures { Declared (version_of version) key s.now id number kind result }
{
    let named = bytes::part(s, id.start, id.end);
    let definition = definition::definition_of(version, key, named, id.quoted);
    let n = bytes::part(s, number.start, number.end);
    let t = bytes::part(s, kind.start, kind.end);
    is_defined(definition, n, number.quoted, t, kind.quoted)
}

fn parse_typed_value(s: &[u8], c: Cursor, key: MapKey, version: FileFormat) -> MapRead
    ensures { Full key → ParsesMap (version_of version) key s.now c.at result }
{
    match typed::parse_typed(s, c, key, version) {
        Err(x) => Err(x),
        Ok((id, tag, number, kind, tally)) => {
            if !validate_definition(s, version, key, id, number, kind) {
                return Err(Refusal::DefinitionMismatch);
            }
            Ok((id, tag, tally))
        }
    }
}

fn parse_map_value(s: &[u8], c: Cursor, key: MapKey, version: FileFormat) -> MapRead
    ensures { ParsesMap (version_of version) key s.now c.at result }
{
    match key {
        MapKey::Info | MapKey::Format => parse_typed_value(s, c, key, version),
        MapKey::Filter | MapKey::AlternativeAllele => map::parse_described(s, c, key, version),
        MapKey::Contig | MapKey::Meta | MapKey::Pedigree | MapKey::Other => {
            map::parse_identified(s, c, key, version)
        }
    }
}

// Typed keys, META and PEDIGREE are always maps; others by how their value begins.
pub fn is_map_value(s: &[u8], c: Cursor, key: MapKey, version: FileFormat) -> bool
    ensures { result ≡ is_map (version_of version) (case_bytes key) (drop c.at s.now) }
{
    key.is_typed() || key.is_always_map() || map::is_map(s, c, version)
}

pub fn parse_value(s: &[u8], c: Cursor, key: MapKey, version: FileFormat) -> ValueParsed
    ensures { ParsesValue (version_of version) key s.now c.at result }
{
    if !is_map_value(s, c, key, version) {
        return Ok(None);
    }
    match parse_map_value(s, c, key, version) {
        Ok((id, tag, tally)) => Ok(Some((id, tag, tally))),
        Err(x) => Err(x),
    }
}
