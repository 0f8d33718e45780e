// What a header says under a name.
ghost use Rattle.std.specs.Prelude.{◌≡◌, length};
ghost use Rattle.std.proofs.lemmas.List.Edits.{sets};
ghost use Rattle.values.specs.Bytes.{same};
ghost use Rattle.values.specs.Value.{meaning};
ghost use Rattle.rules.specs.Version.{version};
ghost use Rattle.rules.specs.Lines.{pieces};
ghost use Rattle.entries.specs.Values.{limits_by};
ghost use Rattle.entries.specs.Tables.{entry_at, shown_field};
ghost use Rattle.lookup.specs.End.{header_end};
ghost use Rattle.lookup.specs.Entries.{described_in, first_under};
ghost use Rattle.lookup.specs.Fields.{field_apart, entry_text, text_under};
ghost use Rattle.lookup.specs.Meanings.{fitting, written_as};
ghost use Rattle.capi.specs.Answers.{flag, form_by};
ghost use Rattle.capi.specs.Lookups.{is_set, described_as, field_as, value_as, entry_as, meaning_as, meant, text_answer, text_written};

use capi::lookups;
use capi::lookups::{VcfhDescribed, VcfhField, VcfhMeaning, VcfhUnder, VcfhValue};

// An entry, from 0, with all that it tells.
#[unsafe(no_mangle)]
pub extern "C" fn vcfh_describe(
    header: &[u8],
    table: &[u64],
    form: u64,
    entry: u64,
) -> VcfhDescribed
    ensures { result ≡ described_as (described_in header.now (entry_at (form_by form) header.now table.now entry)) }
{
    lookups::vcfh_describe(header, table, form, entry)
}

// Field `field`, from 0, of an entry; the entry's line is read again, under the version given.
#[unsafe(no_mangle)]
pub extern "C" fn vcfh_field_parts(
    header: &[u8],
    table: &[u64],
    form: u64,
    entry: u64,
    major: u32,
    minor: u32,
    field: u64,
) -> VcfhField
    ensures { result ≡ field_as (field_apart header.now (shown_field (form_by form) header.now table.now entry (version major minor) field)) }
{
    lookups::vcfh_field_parts(header, table, form, entry, major, minor, field)
}

// The value of the first field with this key of an entry, so.
#[unsafe(no_mangle)]
pub extern "C" fn vcfh_value(
    header: &[u8],
    table: &[u64],
    form: u64,
    entry: u64,
    major: u32,
    minor: u32,
    field: &[u8],
) -> VcfhValue
    ensures { result ≡ value_as (entry_text (limits_by (form_by form)).counted header.now (version major minor) field.now
        (entry_at (form_by form) header.now table.now entry)) }
{
    lookups::vcfh_value(header, table, form, entry, major, minor, field)
}

// The first entry with this key and an ID that means this.
#[unsafe(no_mangle)]
pub extern "C" fn vcfh_find_entry(
    header: &[u8],
    table: &[u64],
    form: u64,
    key: &[u8],
    id: &[u8],
) -> VcfhUnder
    ensures { result ≡ entry_as (first_under (form_by form) header.now table.now key.now id.now) }
{
    lookups::vcfh_find_entry(header, table, form, key, id)
}

// The value of its first field with this key, as a part of the header.
#[unsafe(no_mangle)]
pub extern "C" fn vcfh_find_value(
    header: &[u8],
    table: &[u64],
    form: u64,
    major: u32,
    minor: u32,
    key: &[u8],
    id: &[u8],
    field: &[u8],
) -> VcfhValue
    ensures { result ≡ value_as (text_under (form_by form) header.now table.now (version major minor) field.now
        (first_under (form_by form) header.now table.now key.now id.now)) }
{
    lookups::vcfh_find_value(header, table, form, major, minor, key, id, field)
}

// What that value means, written into the output; nothing is written where it does not fit.
#[unsafe(no_mangle)]
pub extern "C" fn vcfh_find_text(
    header: &[u8],
    table: &[u64],
    form: u64,
    major: u32,
    minor: u32,
    key: &[u8],
    id: &[u8],
    field: &[u8],
    out: &mut [u8],
) -> VcfhMeaning
    ensures answer { result ≡ text_answer (length out.old) (meant header.now (text_under (form_by form) header.now table.now
        (version major minor) field.now (first_under (form_by form) header.now table.now key.now id.now))) }
    ensures output { out.new ≡ text_written out.old (meant header.now (text_under (form_by form) header.now table.now
        (version major minor) field.now (first_under (form_by form) header.now table.now key.now id.now))) }
{
    lookups::vcfh_find_text(header, table, form, major, minor, key, id, field, out)
}

// What a text means that stands between quotes, where `quoted` is not 0, or bare; written into the output.
#[unsafe(no_mangle)]
pub extern "C" fn vcfh_meaning(text: &[u8], quoted: u64, out: &mut [u8]) -> VcfhMeaning
    ensures answer { result ≡ meaning_as (written_as (length out.old) (meaning (is_set quoted) text.now)) }
    ensures output { out.new ≡ sets out.old 0 (fitting (length out.old) (meaning (is_set quoted) text.now)) }
{
    lookups::vcfh_meaning(text, quoted, out)
}

// 1 if it means these bytes, else 0.
#[unsafe(no_mangle)]
pub extern "C" fn vcfh_means(text: &[u8], quoted: u64, other: &[u8]) -> u64
    ensures { result ≡ flag (same (meaning (is_set quoted) text.now) other.now) }
{
    lookups::vcfh_means(text, quoted, other)
}

// Where the header of a whole VCF ends: past its column line, or after all bytes where it has none.
#[unsafe(no_mangle)]
pub extern "C" fn vcfh_header_end(bytes: &[u8]) -> u64
    ensures { result ≡ header_end (pieces bytes.now) }
{
    lookups::vcfh_header_end(bytes)
}
