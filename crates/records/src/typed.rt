// A map under the key INFO or FORMAT.
ghost use Rattle.std.specs.Prelude.{◌≡◌};
ghost use Rattle.records.specs.Formats.{version_of};
ghost use Rattle.records.specs.Maps.{typed_of, Full, ParsesTyped};

use crate::file_format::FileFormat;
use crate::key::MapKey;
use crate::map;
use crate::map::{Tally, TypedRead};
use crate::refusal::Refusal;
use values::cursor::Cursor;
use values::string::Text;

fn typed_of(id: Text, tag: u8, number: Text, kind: Text, tally: Tally) -> TypedRead
    ensures { result ≡ typed_of id tag number kind tally }
{
    Ok((id, tag, number, kind, tally))
}

pub fn parse_typed(s: &[u8], c: Cursor, key: MapKey, version: FileFormat) -> TypedRead
    ensures { Full key → ParsesTyped (version_of version) key s.now c.at result }
{
    match map::parse_map(s, c, key, version) {
        Err(x) => Err(x),
        Ok((slots, tally)) => {
            let named = slots.id;
            let Some((id, tag)) = named else {
                return Err(Refusal::MissingId);
            };
            let numbered = slots.number;
            let Some((number, _)) = numbered else {
                return Err(Refusal::MissingNumber);
            };
            let typed = slots.kind;
            let Some((kind, _)) = typed else {
                return Err(Refusal::MissingType);
            };
            let described = slots.description;
            let Some((_, _)) = described else {
                return Err(Refusal::MissingDescription);
            };
            typed_of(id, tag, number, kind, tally)
        }
    }
}
