// What a header says under a name: an entry told whole, a field's key and value apart, and what a text means.
ghost use Rattle.std.specs.Prelude.{◌≡◌, length};
ghost use Rattle.std.proofs.lemmas.List.Edits.{sets};
ghost use Rattle.values.specs.Bytes.{same};
ghost use Rattle.values.specs.Value.{meaning};
ghost use Rattle.rules.specs.Version.{version};
ghost use Rattle.rules.specs.Lines.{pieces};
ghost use Rattle.entries.specs.Values.{limits_by};
ghost use Rattle.entries.specs.Tables.{entry_at, shown_field};
ghost use Rattle.lookup.specs.End.{header_end};
ghost use Rattle.lookup.specs.Entries.{described_in, first_under};
ghost use Rattle.lookup.specs.Fields.{field_apart, entry_text, text_under};
ghost use Rattle.lookup.specs.Meanings.{fitting, written_as};
ghost use Rattle.capi.specs.Answers.{flag, form_by};
ghost use Rattle.capi.specs.Lookups.{is_set, described_as, field_as, value_as, TextOrdered, entry_as, meaning_as, meant, text_answer, text_written};

use crate::{flag_of, form_of};
use lookup::entry::Described;
use lookup::field::FieldParts;
use lookup::{end, entry, field, find, meaning};
use records::file_format::FileFormat;
use records::refusal::Refusal;
use values::string::Text;
use values::{bytes, string};

// Number 0, the kind, and the line, the key and the ID as parts of the header, with 1 if there is an ID and 1 if it stands between
// quotes; or number 29 and nothing.
#[repr(C)]
#[derive(Clone, Copy)]
pub struct VcfhDescribed {
    pub number: u64,
    pub kind: u64,
    pub start: u64,
    pub length: u64,
    pub key_start: u64,
    pub key_length: u64,
    pub has_id: u64,
    pub id_start: u64,
    pub id_length: u64,
    pub quoted: u64,
}

// Number 0, a field's key and its value's text as parts of the header, and 1 if that stands between quotes; or number 29 and nothing.
#[repr(C)]
#[derive(Clone, Copy)]
pub struct VcfhField {
    pub number: u64,
    pub key_start: u64,
    pub key_length: u64,
    pub start: u64,
    pub length: u64,
    pub quoted: u64,
}

// The same of a value alone.
#[repr(C)]
#[derive(Clone, Copy)]
pub struct VcfhValue {
    pub number: u64,
    pub start: u64,
    pub length: u64,
    pub quoted: u64,
}

// Number 0 and an entry's number, or number 29 and 0.
#[repr(C)]
#[derive(Clone, Copy)]
pub struct VcfhUnder {
    pub number: u64,
    pub entry: u64,
}

// Number 0 and how many bytes were written; or number 28 where they do not fit, 29 where there is nothing to write, and 0.
#[repr(C)]
#[derive(Clone, Copy)]
pub struct VcfhMeaning {
    pub number: u64,
    pub length: u64,
}

fn described(description: Option<Described>) -> VcfhDescribed
    ensures { result ≡ described_as description }
{
    match description {
        Some(e) => {
            let has_id = flag_of(e.has_id);
            let quoted = flag_of(e.quoted);
            VcfhDescribed {
                number: 0,
                kind: e.kind as u64,
                start: e.start as u64,
                length: e.length as u64,
                key_start: e.key_start as u64,
                key_length: e.key_length as u64,
                has_id,
                id_start: e.id_start as u64,
                id_length: e.id_length as u64,
                quoted,
            }
        }
        None => {
            let refusal = Refusal::InvalidEntry;
            VcfhDescribed {
                number: refusal.number(),
                kind: 0,
                start: 0,
                length: 0,
                key_start: 0,
                key_length: 0,
                has_id: 0,
                id_start: 0,
                id_length: 0,
                quoted: 0,
            }
        }
    }
}

fn field_of(shown: Option<FieldParts>) -> VcfhField
    ensures { result ≡ field_as shown }
{
    match shown {
        Some(f) => {
            let quoted = flag_of(f.quoted);
            VcfhField {
                number: 0,
                key_start: f.key_start as u64,
                key_length: f.key_length as u64,
                start: f.start as u64,
                length: f.length as u64,
                quoted,
            }
        }
        None => {
            let refusal = Refusal::InvalidEntry;
            VcfhField {
                number: refusal.number(),
                key_start: 0,
                key_length: 0,
                start: 0,
                length: 0,
                quoted: 0,
            }
        }
    }
}

fn value_of(found: Option<Text>) -> VcfhValue
    requires { TextOrdered found }
    ensures { result ≡ value_as found }
{
    match found {
        Some(text) => {
            let quoted = flag_of(text.quoted);
            VcfhValue {
                number: 0,
                start: text.start as u64,
                length: (text.end - text.start) as u64,
                quoted,
            }
        }
        None => {
            let refusal = Refusal::InvalidEntry;
            VcfhValue {
                number: refusal.number(),
                start: 0,
                length: 0,
                quoted: 0,
            }
        }
    }
}

fn entry_of(found: Option<usize>) -> VcfhUnder
    ensures { result ≡ entry_as found }
{
    match found {
        Some(n) => VcfhUnder {
            number: 0,
            entry: n as u64,
        },
        None => {
            let refusal = Refusal::InvalidEntry;
            VcfhUnder {
                number: refusal.number(),
                entry: 0,
            }
        }
    }
}

fn meaning_of(written: Option<usize>) -> VcfhMeaning
    ensures { result ≡ meaning_as written }
{
    match written {
        Some(n) => VcfhMeaning {
            number: 0,
            length: n as u64,
        },
        None => {
            let refusal = Refusal::FormTooLong;
            VcfhMeaning {
                number: refusal.number(),
                length: 0,
            }
        }
    }
}

// An entry, from 0, with all that it tells.
#[unsafe(no_mangle)]
pub extern "C" fn vcfh_describe(
    header: &[u8],
    table: &[u64],
    form: u64,
    entry: u64,
) -> VcfhDescribed
    ensures { result ≡ described_as (described_in header.now (entry_at (form_by form) header.now table.now entry)) }
{
    described(entry::describe(header, table, form_of(form), entry as usize))
}

// Field `field`, from 0, of an entry; the entry's line is read again, under the version given.
#[unsafe(no_mangle)]
pub extern "C" fn vcfh_field_parts(
    header: &[u8],
    table: &[u64],
    form: u64,
    entry: u64,
    major: u32,
    minor: u32,
    field: u64,
) -> VcfhField
    ensures { result ≡ field_as (field_apart header.now (shown_field (form_by form) header.now table.now entry (version major minor) field)) }
{
    let under = FileFormat::new(major, minor);
    field_of(field::field_parts(
        header,
        table,
        form_of(form),
        entry as usize,
        under,
        field as usize,
    ))
}

// The value of the first field with this key of an entry, so.
#[unsafe(no_mangle)]
pub extern "C" fn vcfh_value(
    header: &[u8],
    table: &[u64],
    form: u64,
    entry: u64,
    major: u32,
    minor: u32,
    field: &[u8],
) -> VcfhValue
    ensures { result ≡ value_as (entry_text (limits_by (form_by form)).counted header.now (version major minor) field.now
        (entry_at (form_by form) header.now table.now entry)) }
{
    let under = FileFormat::new(major, minor);
    value_of(field::value(header, table, form_of(form), entry as usize, under, field))
}

// The first entry with this key and an ID that means this.
#[unsafe(no_mangle)]
pub extern "C" fn vcfh_find_entry(
    header: &[u8],
    table: &[u64],
    form: u64,
    key: &[u8],
    id: &[u8],
) -> VcfhUnder
    ensures { result ≡ entry_as (first_under (form_by form) header.now table.now key.now id.now) }
{
    entry_of(find::find_entry(header, table, form_of(form), key, id))
}

// The value of its first field with this key, as a part of the header.
#[unsafe(no_mangle)]
pub extern "C" fn vcfh_find_value(
    header: &[u8],
    table: &[u64],
    form: u64,
    major: u32,
    minor: u32,
    key: &[u8],
    id: &[u8],
    field: &[u8],
) -> VcfhValue
    ensures { result ≡ value_as (text_under (form_by form) header.now table.now (version major minor) field.now
        (first_under (form_by form) header.now table.now key.now id.now)) }
{
    let under = FileFormat::new(major, minor);
    value_of(find::find_value(header, table, form_of(form), under, key, id, field))
}

// What that value means, written into the output; nothing is written where it does not fit.
#[unsafe(no_mangle)]
pub extern "C" fn vcfh_find_text(
    header: &[u8],
    table: &[u64],
    form: u64,
    major: u32,
    minor: u32,
    key: &[u8],
    id: &[u8],
    field: &[u8],
    out: &mut [u8],
) -> VcfhMeaning
    ensures answer { result ≡ text_answer (length out.old) (meant header.now (text_under (form_by form) header.now table.now
        (version major minor) field.now (first_under (form_by form) header.now table.now key.now id.now))) }
    ensures output { out.new ≡ text_written out.old (meant header.now (text_under (form_by form) header.now table.now
        (version major minor) field.now (first_under (form_by form) header.now table.now key.now id.now))) }
{
    let under = FileFormat::new(major, minor);
    match find::find_value(header, table, form_of(form), under, key, id, field) {
        Some(text) => {
            let s = bytes::part(header, text.start, text.end);
            meaning_of(meaning::put_meaning(s, text.quoted, out))
        }
        None => {
            let refusal = Refusal::InvalidEntry;
            VcfhMeaning {
                number: refusal.number(),
                length: 0,
            }
        }
    }
}

// What a text means that stands between quotes, where `quoted` is not 0, or bare; written into the output.
#[unsafe(no_mangle)]
pub extern "C" fn vcfh_meaning(text: &[u8], quoted: u64, out: &mut [u8]) -> VcfhMeaning
    ensures answer { result ≡ meaning_as (written_as (length out.old) (meaning (is_set quoted) text.now)) }
    ensures output { out.new ≡ sets out.old 0 (fitting (length out.old) (meaning (is_set quoted) text.now)) }
{
    meaning_of(meaning::put_meaning(text, quoted != 0, out))
}

// 1 if it means these bytes, else 0.
#[unsafe(no_mangle)]
pub extern "C" fn vcfh_means(text: &[u8], quoted: u64, other: &[u8]) -> u64
    ensures { result ≡ flag (same (meaning (is_set quoted) text.now) other.now) }
{
    flag_of(string::same_meaning(text, quoted != 0, other, false))
}

// Where the header of a whole VCF ends: past its column line, or after all bytes where it has none.
#[unsafe(no_mangle)]
pub extern "C" fn vcfh_header_end(bytes: &[u8]) -> u64
    ensures { result ≡ header_end (pieces bytes.now) }
{
    end::header_end(bytes) as u64
}
