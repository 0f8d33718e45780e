// A map: `<`, fields parted by `,`, then `>` as the last byte of the line.
ghost use Rattle.std.specs.Prelude.{◌≡◌, false, ◌||◌, drop};
ghost use Rattle.values.specs.Integer.{u64_read};
ghost use Rattle.values.specs.Value.{meaning};
ghost use Rattle.rules.specs.Answer.{unless};
ghost use Rattle.rules.specs.Known.{is_in, letters, always_map};
ghost use Rattle.rules.specs.Record.{looks_map};
ghost use Rattle.rules.specs.Spelling.{is_odd, odd_value};
ghost use Rattle.records.specs.Formats.{version_of};
ghost use Rattle.records.specs.Refusals.{number};
ghost use Rattle.records.specs.Keys.{case_bytes, kind_by};
ghost use Rattle.records.specs.Numbers.{is_count, letters_of};
ghost use Rattle.records.specs.Tags.{tag_row};
ghost use Rattle.records.specs.Maps.{opens_at, closes_at, after_at, Checked, raw_refusal, no_slots, slots_of, filled_as, fields_of, get, put_slot, Distinct, Repeats, TakesField, ReadsField, WalksFields, bare_at, ReadsFields, OpensMap, Identified, Described, ParsesMap};

use crate::file_format::FileFormat;
use crate::key::{MapContext, MapKey};
use crate::number::Letters;
use crate::refusal::Refusal;
use crate::tag::Tag;
use crate::{distinct, number, tag};
use values::cursor::Cursor;
use values::string::Text;
use values::{bytes, integer};

// A text that was read, and which name stood for the ID.
pub type Slot = Option<(Text, u8)>;

// The fields that are kept while a map is read; `plain`: each field so far is one of them; `odd`: a number so far was not plainly
// spelled.
#[derive(Clone, Copy)]
pub struct Slots {
    pub id: Slot,
    pub number: Slot,
    pub kind: Slot,
    pub description: Slot,
    pub plain: bool,
    pub odd: bool,
}

// What follows a value.
#[derive(Clone, Copy)]
pub enum After {
    More(Cursor),
    Closed,
    Other,
}

// A field: its tag, where its text starts and ends, whether it is quoted, which name stood for the ID, whether a number up to it was not
// plainly spelled, and past it. A text that is handed on whole is copied, and the processor waits for the copy where it is read.
pub type FieldTaken = Result<(Tag, usize, usize, bool, u8, bool, Cursor), Refusal>;

// The same after where the next field stands; after the last field, what is kept of all.
#[derive(Clone, Copy)]
pub enum FieldStep {
    Next(Cursor, Tag, usize, usize, bool, u8, bool),
    Last(Slots),
}

// What the fields of a map tell together: whether a number among them was not plainly spelled, and how many they are.
#[derive(Clone, Copy)]
pub struct Tally {
    pub odd: bool,
    pub fields: usize,
}

pub type FieldsRead = Result<(Slots, Tally), Refusal>;

// The ID of a map, which name stands for it, and what its fields tell together.
pub type MapRead = Result<(Text, u8, Tally), Refusal>;

// The ID of an INFO or FORMAT map, which name stands for it, its Number and its Type, and what its fields tell together.
pub type TypedRead = Result<(Text, u8, Text, Text, Tally), Refusal>;

// Whether the value of an untyped key is a map.
pub fn is_map(s: &[u8], c: Cursor, version: FileFormat) -> bool
    ensures { result ≡ looks_map (version_of version) (drop c.at s.now) }
{
    let rest = bytes::part(s, c.at, s.len());
    if version.lt(FileFormat::V4_3) {
        return bytes::starts_with(rest, b"<ID=");
    }
    bytes::starts_with(rest, b"<")
}

pub fn consume_prefix(s: &[u8], c: Cursor) -> Option<Cursor>
    ensures { result ≡ opens_at s.now c.at }
{
    let at = c.at;
    if at < s.len() && s[at] == b'<' {
        return Some(Cursor { at: at + 1 });
    }
    None
}

// `>` as the last byte of the line.
pub fn consume_suffix(s: &[u8], c: Cursor) -> bool
    ensures { result ≡ closes_at s.now c.at }
{
    let at = c.at;
    at < s.len() && s[at] == b'>' && at + 1 == s.len()
}

pub fn after_field(s: &[u8], c: Cursor) -> After
    ensures { result ≡ after_at s.now c.at }
{
    match c.consume_separator(s) {
        Some(next) => After::More(next),
        None => {
            if consume_suffix(s, c) {
                return After::Closed;
            }
            After::Other
        }
    }
}

// What passed says whether it is a number that was not plainly spelled.
fn pass_or(passed: bool, refusal: Refusal) -> Result<bool, Refusal>
    ensures { Checked result (unless passed (number refusal)) false }
{
    if passed {
        return Ok(false);
    }
    Err(refusal)
}

// IDX and length.
fn check_integer(s: &[u8]) -> Result<bool, Refusal>
    ensures { Checked result (unless (is_count s.now) 13) (is_odd (u64_read s.now)) }
{
    match integer::parse_u64(s) {
        Some((_, plain)) => Ok(!plain),
        None => Err(Refusal::InvalidInteger),
    }
}

// Number: a count, or one of the letters.
fn check_number(s: &[u8], quoted: bool, letters: Letters) -> Result<bool, Refusal>
    ensures { Checked result (unless (is_count s.now || is_in (meaning quoted s.now) (letters_of letters)) 11) (is_odd (u64_read s.now)) }
{
    match integer::parse_u64(s) {
        Some((_, plain)) => Ok(!plain),
        None => pass_or(
            number::is_letter_of(s, quoted, letters),
            Refusal::InvalidNumber,
        ),
    }
}

impl MapKey {
    fn letters(self, version: FileFormat) -> Letters
        ensures { letters_of result ≡ letters (version_of version) (kind_by self) }
    {
        if !self.is_format() || version.lt(FileFormat::V4_4) {
            return Letters::Common;
        }
        if version.lt(FileFormat::V4_5) {
            return Letters::Phased;
        }
        Letters::Local
    }

    // Number, Type, IDX and length have rules of their own.
    pub fn check_value(
        self,
        version: FileFormat,
        tag: Tag,
        s: &[u8],
        quoted: bool,
    ) -> Result<bool, Refusal>
        ensures { Checked result (raw_refusal (version_of version) (kind_by self) s.now quoted (tag_row tag)) (odd_value s.now (tag_row tag)) }
    {
        match tag {
            Tag::Number => check_number(s, quoted, self.letters(version)),
            Tag::ValueType => {
                pass_or(
                    number::is_type(s, quoted, self.is_info()),
                    Refusal::InvalidType,
                )
            }
            Tag::Length | Tag::Idx => check_integer(s),
            Tag::Id | Tag::Description | Tag::Md5 | Tag::Url | Tag::Other => Ok(false),
        }
    }
}

fn slots_of(id: Slot, number: Slot, kind: Slot, description: Slot, plain: bool, odd: bool) -> Slots
    ensures { result ≡ slots_of id number kind description plain odd }
{
    Slots {
        id,
        number,
        kind,
        description,
        plain,
        odd,
    }
}

impl Slots {
    pub fn empty() -> Slots
        ensures { result ≡ no_slots }
    {
        Slots {
            id: None,
            number: None,
            kind: None,
            description: None,
            plain: true,
            odd: false,
        }
    }

    fn get(self, tag: Tag) -> Slot
        ensures { result ≡ get tag self }
    {
        match tag {
            Tag::Id => self.id,
            Tag::Number => self.number,
            Tag::ValueType => self.kind,
            Tag::Description => self.description,
            _ => None,
        }
    }

    fn put(self, tag: Tag, slot: Slot, odd: bool) -> Slots
        ensures { result ≡ put_slot tag slot odd self }
    {
        match tag {
            Tag::Id => Slots {
                id: slot,
                odd,
                ..self
            },
            Tag::Number => Slots {
                number: slot,
                odd,
                ..self
            },
            Tag::ValueType => Slots {
                kind: slot,
                odd,
                ..self
            },
            Tag::Description => Slots {
                description: slot,
                odd,
                ..self
            },
            _ => Slots {
                plain: false,
                odd,
                ..self
            },
        }
    }
}

// Whether a field of the same name stands before `at`: the kept ones are at hand, others are looked for, unless each
// field before is kept or the names before `distinct` are known to differ.
fn is_repeated(
    s: &[u8],
    map: MapContext,
    at: usize,
    field: &[u8],
    tag: Tag,
    slots: Slots,
    distinct: usize,
) -> bool
    requires { Distinct map s.now distinct }
    ensures { Repeats map s.now at field.now tag slots result }
{
    if tag.is_kept() {
        return match slots.get(tag) {
            None => false,
            Some((_, _)) => true,
        };
    }
    let plain = slots.plain;
    // Kept: with `plain || at < distinct` in one test the proof didn't close at `returns-then-slots`, where both reasons meet.
    if plain {
        return false;
    }
    if at < distinct {
        return false;
    }
    distinct::has_key(s, map.start, at, map.brackets, field)
}

// The field at the cursor.
fn take_field(s: &[u8], map: MapContext, c: Cursor, slots: Slots, distinct: usize) -> FieldTaken
    requires { Distinct map s.now distinct }
    ensures { TakesField map s.now c.at slots result }
{
    let at = c.at;
    let key = map.key;
    let version = map.version;
    let Some((equals, text, next)) = c.split_field(s, map.brackets) else {
        return Err(Refusal::InvalidField);
    };
    let field = bytes::part(s, at, equals);
    let tag = key.tag(version, field);
    let value = bytes::part(s, text.start, text.end);
    match key.check_value(version, tag, value, text.quoted) {
        Err(x) => Err(x),
        Ok(odd) => {
            if is_repeated(s, map, at, field, tag, slots, distinct) {
                return Err(Refusal::DuplicateTag);
            }
            let name = tag::id_tag(field);
            let strange = slots.odd | odd;
            Ok((tag, text.start, text.end, text.quoted, name, strange, next))
        }
    }
}

// The same, and what follows it.
fn read_field(
    s: &[u8],
    map: MapContext,
    c: Cursor,
    slots: Slots,
    distinct: usize,
) -> Result<FieldStep, Refusal>
    requires { Distinct map s.now distinct }
    ensures { ReadsField map s.now c.at slots result }
{
    match take_field(s, map, c, slots, distinct) {
        Err(x) => Err(x),
        Ok((tag, start, end, quoted, name, odd, next)) => match after_field(s, next) {
            After::More(d) => Ok(FieldStep::Next(d, tag, start, end, quoted, name, odd)),
            After::Closed => Ok(FieldStep::Last(slots.put(
                tag,
                filled(start, end, quoted, name),
                odd,
            ))),
            After::Other => Err(Refusal::InvalidMap),
        },
    }
}

fn filled(start: usize, end: usize, quoted: bool, name: u8) -> Slot
    ensures { result ≡ filled_as start end quoted name }
{
    Some((Text { start, end, quoted }, name))
}

// A place before which no two fields have the same name, where the field of this number is read next: few fields are held against all
// before them in less time than it takes to clear marks.
fn distinct_at(s: &[u8], map: MapContext, fields: usize, distinct: usize) -> usize
    requires { Distinct map s.now distinct }
    ensures { Distinct map s.now result }
{
    if fields == 8 {
        return distinct::find(s, map);
    }
    distinct
}

fn fields_of(slots: Slots, fields: usize) -> FieldsRead
    ensures { result ≡ fields_of slots fields }
{
    let odd = slots.odd;
    Ok((slots, Tally { odd, fields }))
}

// One field or more, from the first on. The slots are apart, so that a field writes its own and no other is copied.
fn walk_fields(s: &[u8], map: MapContext) -> FieldsRead
    ensures { WalksFields map s.now result }
{
    let mut c = Cursor { at: map.start };
    let mut id = None;
    let mut number = None;
    let mut kind = None;
    let mut description = None;
    let mut plain = true;
    let mut odd = false;
    let mut fields: usize = 1;
    let mut distinct: usize = 0;
    // Kept: no plainer: each field tells where the next one begins, and a walk has two ways to end.
    loop {
        let slots = slots_of(id, number, kind, description, plain, odd);
        match read_field(s, map, c, slots, distinct) {
            Err(x) => return Err(x),
            Ok(FieldStep::Last(kept)) => return fields_of(kept, fields),
            Ok(FieldStep::Next(next, tag, start, end, quoted, name, strange)) => {
                c = next;
                odd = strange;
                fields += 1;
                distinct = distinct_at(s, map, fields, distinct);
                match tag {
                    Tag::Id => id = filled(start, end, quoted, name),
                    Tag::Number => number = filled(start, end, quoted, name),
                    Tag::ValueType => kind = filled(start, end, quoted, name),
                    Tag::Description => description = filled(start, end, quoted, name),
                    _ => plain = false,
                }
            }
        }
    }
}

// If `>` or the end follows `<`, a map has no fields, but META and PEDIGREE need one.
pub fn is_bare(s: &[u8], c: Cursor, key: MapKey) -> bool
    ensures { result ≡ bare_at s.now c.at (always_map (case_bytes key)) }
{
    let at = c.at;
    !key.is_always_map() && (s.len() <= at || s[at] == b'>')
}

// The fields after the `<`, up to the `>` at the end of the line.
pub fn parse_fields(s: &[u8], c: Cursor, key: MapKey, version: FileFormat) -> FieldsRead
    ensures { ReadsFields (version_of version) key s.now c.at result }
{
    if !is_bare(s, c, key) {
        let map = key.context(version, c.at);
        return walk_fields(s, map);
    }
    if consume_suffix(s, c) {
        return Ok((
            Slots::empty(),
            Tally {
                odd: false,
                fields: 0,
            },
        ));
    }
    Err(Refusal::InvalidMap)
}

// A map from its `<` on, up to the end of the line.
pub fn parse_map(s: &[u8], c: Cursor, key: MapKey, version: FileFormat) -> FieldsRead
    ensures { OpensMap (version_of version) key s.now c.at result }
{
    let Some(d) = consume_prefix(s, c) else {
        return Err(Refusal::InvalidMap);
    };
    parse_fields(s, d, key, version)
}

// A map of a kind in which the ID alone is required.
pub fn parse_identified(s: &[u8], c: Cursor, key: MapKey, version: FileFormat) -> MapRead
    ensures { Identified key → ParsesMap (version_of version) key s.now c.at result }
{
    match parse_map(s, c, key, version) {
        Err(x) => Err(x),
        Ok((slots, tally)) => {
            let named = slots.id;
            let Some((id, tag)) = named else {
                return Err(Refusal::MissingId);
            };
            Ok((id, tag, tally))
        }
    }
}

// A map of a kind in which the ID and a Description are required.
pub fn parse_described(s: &[u8], c: Cursor, key: MapKey, version: FileFormat) -> MapRead
    ensures { Described key → ParsesMap (version_of version) key s.now c.at result }
{
    match parse_map(s, c, key, version) {
        Err(x) => Err(x),
        Ok((slots, tally)) => {
            let named = slots.id;
            let Some((id, tag)) = named else {
                return Err(Refusal::MissingId);
            };
            let described = slots.description;
            let Some((_, _)) = described else {
                return Err(Refusal::MissingDescription);
            };
            Ok((id, tag, tally))
        }
    }
}
