// What C, Rust and Python call: each export is the function of its name in capi, under the same clauses.
#![tactic(auto)]

pub mod feeds;
pub mod indexes;
pub mod lookups;
pub mod sheets;

ghost use Rattle.std.specs.Prelude.{◌≡◌, length};
ghost use Rattle.std.proofs.lemmas.List.Edits.{sets};
ghost use Rattle.values.specs.Utf8.{is_utf8};
ghost use Rattle.rules.specs.Version.{version};
ghost use Rattle.rules.specs.House.{house};
ghost use Rattle.entries.specs.Values.{limits_by};
ghost use Rattle.entries.specs.Tables.{room, stored, shown_entry, shown_id, shown_key, shown_field};
ghost use Rattle.header.specs.Parsers.{read_into};
ghost use Rattle.sam.specs.Contigs.{contig_lines, contigs_fitting};
ghost use Rattle.register.specs.Register.{register_of};
ghost use Rattle.register.specs.Compare.{differing};
ghost use Rattle.spelling.specs.Odd.{odd_in, odd_answer, odd_list};
ghost use Rattle.turning.specs.Turning.{to_first, to_second, turn_answer, turn_table};
ghost use Rattle.capi.specs.Answers.{flag, imposed_by, form_by, answer_in_c, form_in_c, dictionaries_in, dictionaries_in_c, part_of, key_shown_in, register_as, differences_as, odd_as, turned_as, contigs_in_c};
ghost use Rattle.house.specs.IsHouse.{is_house};
ghost use Rattle.capi.specs.Verdicts.{verdict_in_c};

use capi::{
    VcfhAnswer, VcfhContigs, VcfhDictionaries, VcfhDifferences, VcfhForm, VcfhKey, VcfhOdd,
    VcfhPart, VcfhRegister, VcfhTurned, VcfhVerdict,
};

// Kept: the C interface: each function here and in the modules exports the one of its name in capi, since an export is not generic.
// 1 if the bytes are UTF-8, else 0.
#[unsafe(no_mangle)]
pub extern "C" fn vcfh_utf8(bytes: &[u8]) -> u64
    ensures { result ≡ flag (is_utf8 bytes.now) }
{
    capi::vcfh_utf8(bytes)
}

// Reads a header into the table. `form`: 1 for the first form and its limits, with two words for each entry; 2 for the second, with three.
#[unsafe(no_mangle)]
pub extern "C" fn vcfh_read(
    header: &[u8],
    imposed: u64,
    major: u32,
    minor: u32,
    form: u64,
    table: &mut [u64],
) -> VcfhAnswer
    ensures answer { result ≡ answer_in_c (read_into (form_by form) (imposed_by imposed major minor) table.old header.now) }
    ensures table { table.new ≡ stored (form_by form) table.old 0
        (read_into (form_by form) (imposed_by imposed major minor) table.old header.now).entries }
{
    capi::vcfh_read(header, imposed, major, minor, form, table)
}

// Reads a header into the table and writes its house form into the output.
#[unsafe(no_mangle)]
pub extern "C" fn vcfh_house(
    header: &[u8],
    imposed: u64,
    major: u32,
    minor: u32,
    form: u64,
    table: &mut [u64],
    out: &mut [u8],
) -> VcfhForm
    ensures answer { result ≡ form_in_c (read_into (form_by form) (imposed_by imposed major minor) table.old header.now)
        (house (limits_by (form_by form)) (imposed_by imposed major minor) (room (form_by form) table.old) (length out.old) header.now) }
    ensures table { table.new ≡ stored (form_by form) table.old 0
        (read_into (form_by form) (imposed_by imposed major minor) table.old header.now).entries }
    ensures output { out.new ≡ sets out.old 0
        (house (limits_by (form_by form)) (imposed_by imposed major minor) (room (form_by form) table.old) (length out.old) header.now).form }
{
    capi::vcfh_house(header, imposed, major, minor, form, table, out)
}

// Reads a header into the table and writes both dictionaries of BCF, pairs of an entry's number and its ID's number.
#[unsafe(no_mangle)]
pub extern "C" fn vcfh_dictionaries(
    header: &[u8],
    imposed: u64,
    major: u32,
    minor: u32,
    form: u64,
    table: &mut [u64],
    strings: &mut [u64],
    contigs: &mut [u64],
) -> VcfhDictionaries
    ensures answer { result ≡ dictionaries_in_c (read_into (form_by form) (imposed_by imposed major minor) table.old header.now)
        (dictionaries_in (form_by form) (imposed_by imposed major minor) header.now table.old strings.old contigs.old) }
    ensures table { table.new ≡ stored (form_by form) table.old 0
        (read_into (form_by form) (imposed_by imposed major minor) table.old header.now).entries }
    ensures strings { strings.new ≡ sets strings.old 0
        (dictionaries_in (form_by form) (imposed_by imposed major minor) header.now table.old strings.old contigs.old).strings }
    ensures contigs { contigs.new ≡ sets contigs.old 0
        (dictionaries_in (form_by form) (imposed_by imposed major minor) header.now table.old strings.old contigs.old).contigs }
{
    capi::vcfh_dictionaries(header, imposed, major, minor, form, table, strings, contigs)
}

// Reads a header into the table, and its cell register.
#[unsafe(no_mangle)]
pub extern "C" fn vcfh_register(
    header: &[u8],
    imposed: u64,
    major: u32,
    minor: u32,
    form: u64,
    table: &mut [u64],
) -> VcfhRegister
    ensures answer { result ≡ register_as (register_of (limits_by (form_by form)) (imposed_by imposed major minor) (room (form_by form) table.old) header.now) }
    ensures table { table.new ≡ stored (form_by form) table.old 0
        (read_into (form_by form) (imposed_by imposed major minor) table.old header.now).entries }
{
    capi::vcfh_register(header, imposed, major, minor, form, table)
}

// The wells in which the constants of two registers differ, whatever they are.
#[unsafe(no_mangle)]
pub extern "C" fn vcfh_compare(old: VcfhRegister, new: VcfhRegister) -> VcfhDifferences
    ensures { result ≡ differences_as (differing 1 old.constants new.constants) }
{
    capi::vcfh_compare(old, new)
}

// Writes a contig line for each `@SQ` line of a SAM header into the output.
#[unsafe(no_mangle)]
pub extern "C" fn vcfh_contigs(sam: &[u8], out: &mut [u8]) -> VcfhContigs
    ensures answer { result ≡ contigs_in_c (contigs_fitting (length out.old) sam.now) }
    ensures output { out.new ≡ sets out.old 0
        (contig_lines (contigs_fitting (length out.old) sam.now).contigs) }
{
    capi::vcfh_contigs(sam, out)
}

// The line of an entry, from 0, or the sample name.
#[unsafe(no_mangle)]
pub extern "C" fn vcfh_entry(header: &[u8], table: &[u64], form: u64, entry: u64) -> VcfhPart
    ensures { result ≡ part_of (shown_entry (form_by form) header.now table.now entry) }
{
    capi::vcfh_entry(header, table, form, entry)
}

// The ID of an entry, without quotes.
#[unsafe(no_mangle)]
pub extern "C" fn vcfh_id(header: &[u8], table: &[u64], form: u64, entry: u64) -> VcfhPart
    ensures { result ≡ part_of (shown_id (form_by form) header.now table.now entry) }
{
    capi::vcfh_id(header, table, form, entry)
}

// The key of an entry, after its `##`, and how many fields its record has, in the second form; its line is not read.
#[unsafe(no_mangle)]
pub extern "C" fn vcfh_key(header: &[u8], table: &[u64], form: u64, entry: u64) -> VcfhKey
    ensures { result ≡ key_shown_in (shown_key (form_by form) header.now table.now entry) }
{
    capi::vcfh_key(header, table, form, entry)
}

// Field `field`, from 0, of an entry, key through value; the entry's line is read again, under the version given.
#[unsafe(no_mangle)]
pub extern "C" fn vcfh_field(
    header: &[u8],
    table: &[u64],
    form: u64,
    entry: u64,
    major: u32,
    minor: u32,
    field: u64,
) -> VcfhPart
    ensures { result ≡ part_of (shown_field (form_by form) header.now table.now entry (version major minor) field) }
{
    capi::vcfh_field(header, table, form, entry, major, minor, field)
}

// The numbers of the entries that carry a number with a sign or a leading zero, in table order, by the version given.
#[unsafe(no_mangle)]
pub extern "C" fn vcfh_odd(
    header: &[u8],
    table: &[u64],
    form: u64,
    major: u32,
    minor: u32,
    list: &mut [u64],
) -> VcfhOdd
    ensures answer { result ≡ odd_as (odd_answer (length list.old) (odd_in (form_by form) header.now table.now (version major minor))) }
    ensures list { list.new ≡ odd_list list.old (odd_in (form_by form) header.now table.now (version major minor)) }
{
    capi::vcfh_odd(header, table, form, major, minor, list)
}

// The entries of a table of the first form, in one of the second; their lines are read again, under the version given.
#[unsafe(no_mangle)]
pub extern "C" fn vcfh_to_second(
    header: &[u8],
    first: &[u64],
    major: u32,
    minor: u32,
    second: &mut [u64],
) -> VcfhTurned
    ensures answer { result ≡ turned_as (turn_answer (to_second (version major minor)) header.now first.now second.old) }
    ensures table { second.new ≡ turn_table (to_second (version major minor)) header.now first.now second.old }
{
    capi::vcfh_to_second(header, first, major, minor, second)
}

// The entries of a table of the second form, in one of the first.
#[unsafe(no_mangle)]
pub extern "C" fn vcfh_to_first(header: &[u8], second: &[u64], first: &mut [u64]) -> VcfhTurned
    ensures answer { result ≡ turned_as (turn_answer to_first header.now second.now first.old) }
    ensures table { first.new ≡ turn_table to_first header.now second.now first.old }
{
    capi::vcfh_to_first(header, second, first)
}

// Reads a header into the table and says whether it is its own house form.
#[unsafe(no_mangle)]
pub extern "C" fn vcfh_is_house(
    header: &[u8],
    imposed: u64,
    major: u32,
    minor: u32,
    form: u64,
    table: &mut [u64],
) -> VcfhVerdict
    ensures answer { result ≡ verdict_in_c (read_into (form_by form) (imposed_by imposed major minor) table.old header.now)
        (is_house (limits_by (form_by form)) (imposed_by imposed major minor) (room (form_by form) table.old) header.now) }
    ensures table { table.new ≡ stored (form_by form) table.old 0
        (read_into (form_by form) (imposed_by imposed major minor) table.old header.now).entries }
{
    capi::vcfh_is_house(header, imposed, major, minor, form, table)
}
