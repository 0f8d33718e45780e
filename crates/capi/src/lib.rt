// The library for programs in C, Rust or Python: answers are structs of 64-bit numbers, slices pass as pointer and length.
#![tactic(auto)]

pub mod feeds;
pub mod indexes;
pub mod lookups;
pub mod sheets;

ghost use Rattle.std.specs.Prelude.{◌≡◌, length};
ghost use Rattle.std.proofs.lemmas.List.Edits.{sets};
ghost use Rattle.values.specs.Utf8.{is_utf8};
ghost use Rattle.rules.specs.Version.{version};
ghost use Rattle.rules.specs.House.{house};
ghost use Rattle.entries.specs.Values.{limits_by};
ghost use Rattle.entries.specs.Tables.{room, stored, shown_entry, shown_id, shown_key, shown_field};
ghost use Rattle.header.specs.Verdicts.{imposed_of};
ghost use Rattle.header.specs.Parsers.{outcome_number, outcome_says, read_into};
ghost use Rattle.sam.specs.Contigs.{contig_lines, contigs_fitting};
ghost use Rattle.register.specs.Register.{register_of};
ghost use Rattle.register.specs.Compare.{differing};
ghost use Rattle.spelling.specs.Odd.{odd_in, odd_answer, odd_list};
ghost use Rattle.turning.specs.Turning.{to_first, to_second, turn_answer, turn_table};
ghost use Rattle.capi.specs.Answers.{flag, told_as, imposed_by, form_by, answer_in_c, form_in_c, dictionaries_in, dictionaries_in_c, part_of, part_as, Ordered, key_shown_as, key_shown_in, KeyOrdered, register_as, differences_as, odd_as, turned_as, contigs_in_c};
ghost use Rattle.house.specs.IsHouse.{is_house};
ghost use Rattle.capi.specs.Verdicts.{verdict_in_c};

use entries::form::Form;
use entries::shown::{KeyShown, Shown};
use header::parser::Outcome;
use records::file_format::FileFormat;
use records::refusal::Refusal;
use register::{compare, probe};
use spelling::odd;
use turning::turn;
use turning::turn::TurnAnswer;

// Kept: the C interface: in each struct of this crate that C sees, numbers for refusals and kinds, and a flag or a number beside its value.
// Document 01's number, 0 if accepted; the line and its start; how many entries the table keeps; of an accepted header the number of
// samples and the version in force, all 0 if refused.
#[repr(C)]
#[derive(Clone, Copy)]
pub struct VcfhAnswer {
    pub number: u64,
    pub line: u64,
    pub start: u64,
    pub entries: u64,
    pub samples: u64,
    pub major: u32,
    pub minor: u32,
}

#[derive(Clone, Copy)]
struct Told {
    samples: u64,
    major: u32,
    minor: u32,
}

// Number, line, start and entries as there, and the length of the form, 0 if refused.
#[repr(C)]
#[derive(Clone, Copy)]
pub struct VcfhForm {
    pub number: u64,
    pub line: u64,
    pub start: u64,
    pub entries: u64,
    pub length: u64,
}

// The same, and how many pairs were written of strings and of contigs, 0 if refused.
#[repr(C)]
#[derive(Clone, Copy)]
pub struct VcfhDictionaries {
    pub number: u64,
    pub line: u64,
    pub start: u64,
    pub entries: u64,
    pub strings: u64,
    pub contigs: u64,
}

// Document 02's number, 0 if the entries are listed, and how many there are, 0 if refused.
#[repr(C)]
#[derive(Clone, Copy)]
pub struct VcfhOdd {
    pub number: u64,
    pub listed: u64,
}

// Document 02's number, 0 if the entries are turned, and how many there are, 0 if refused.
#[repr(C)]
#[derive(Clone, Copy)]
pub struct VcfhTurned {
    pub number: u64,
    pub entries: u64,
}

// The number, the line and its start, how many contigs were written and in how many bytes, both 0 if refused.
#[repr(C)]
#[derive(Clone, Copy)]
pub struct VcfhContigs {
    pub number: u64,
    pub line: u64,
    pub start: u64,
    pub contigs: u64,
    pub length: u64,
}

// Number 0 and a part of the header, or number 29 and no part.
#[repr(C)]
#[derive(Clone, Copy)]
pub struct VcfhPart {
    pub number: u64,
    pub start: u64,
    pub length: u64,
}

// Number 0, a key as a part of the header and how many fields its record has; or number 29 and nothing.
#[repr(C)]
#[derive(Clone, Copy)]
pub struct VcfhKey {
    pub number: u64,
    pub start: u64,
    pub length: u64,
    pub fields: u64,
}

// The same as a read answer, and the constants of W01 to W40 in whole hundredths, all 0 if refused.
#[repr(C)]
#[derive(Clone, Copy)]
pub struct VcfhRegister {
    pub number: u64,
    pub line: u64,
    pub start: u64,
    pub entries: u64,
    pub constants: [u64; 40],
}

// How many wells differ; then, lowest first, each well's number, what it had and what it has; 0 past these.
#[repr(C)]
#[derive(Clone, Copy)]
pub struct VcfhDifferences {
    pub count: u64,
    pub wells: [u64; 40],
    pub old: [u64; 40],
    pub new: [u64; 40],
}

// Kept: the C interface: numbers that C gives, of which none is refused, so that no TryFrom fits.
// `imposed` 0: no version is imposed.
fn imposed_by(imposed: u64, major: u32, minor: u32) -> Option<FileFormat>
    ensures { imposed_of result ≡ imposed_by imposed major minor }
{
    match imposed {
        0 => None,
        _ => Some(FileFormat::new(major, minor)),
    }
}

// 2 names the second form, any other number the first.
fn form_of(form: u64) -> Form
    ensures { result ≡ form_by form }
{
    match form {
        2 => Form::Second,
        _ => Form::First,
    }
}

fn number_of(outcome: Outcome) -> u64
    ensures { result ≡ outcome_number outcome }
{
    match outcome {
        Ok((_, _)) => 0,
        Err(refusal) => refusal.number(),
    }
}

fn told_of(outcome: Outcome) -> Told
    ensures { result ≡ told_as (outcome_says outcome) }
{
    match outcome {
        Ok((version, samples)) => Told {
            samples: samples as u64,
            major: version.major,
            minor: version.minor,
        },
        Err(_) => Told {
            samples: 0,
            major: 0,
            minor: 0,
        },
    }
}

fn part_of(shown: Shown) -> VcfhPart
    requires { Ordered shown }
    ensures { result ≡ part_as shown }
{
    match shown {
        Some((start, end)) => VcfhPart {
            number: 0,
            start: start as u64,
            length: (end - start) as u64,
        },
        None => {
            let refusal = Refusal::InvalidEntry;
            VcfhPart {
                number: refusal.number(),
                start: 0,
                length: 0,
            }
        }
    }
}

fn key_of(shown: KeyShown) -> VcfhKey
    requires { KeyOrdered shown }
    ensures { result ≡ key_shown_as shown }
{
    match shown {
        Some((start, end, fields)) => VcfhKey {
            number: 0,
            start: start as u64,
            length: (end - start) as u64,
            fields: fields as u64,
        },
        None => {
            let refusal = Refusal::InvalidEntry;
            VcfhKey {
                number: refusal.number(),
                start: 0,
                length: 0,
                fields: 0,
            }
        }
    }
}

fn turned(answer: TurnAnswer) -> VcfhTurned
    ensures { result ≡ turned_as answer }
{
    let outcome = answer.outcome;
    let number = turn::number(outcome);
    VcfhTurned {
        number,
        entries: answer.entries as u64,
    }
}

// 1 if the bytes are UTF-8, else 0.
#[unsafe(no_mangle)]
pub extern "C" fn vcfh_utf8(bytes: &[u8]) -> u64
    ensures { result ≡ flag (is_utf8 bytes.now) }
{
    flag_of(values::utf8::utf8(bytes))
}

// Reads a header into the table. `form`: 1 for the first form and its limits, with two words for each entry; 2 for the second, with three.
#[unsafe(no_mangle)]
pub extern "C" fn vcfh_read(
    header: &[u8],
    imposed: u64,
    major: u32,
    minor: u32,
    form: u64,
    table: &mut [u64],
) -> VcfhAnswer
    ensures answer { result ≡ answer_in_c (read_into (form_by form) (imposed_by imposed major minor) table.old header.now) }
    ensures table { table.new ≡ stored (form_by form) table.old 0
        (read_into (form_by form) (imposed_by imposed major minor) table.old header.now).entries }
{
    let version = imposed_by(imposed, major, minor);
    let named = form_of(form);
    let answer = header::parser::read(header, version, named, table);
    let outcome = answer.outcome;
    let number = number_of(outcome);
    let told = told_of(outcome);
    VcfhAnswer {
        number,
        line: answer.line as u64,
        start: answer.start as u64,
        entries: answer.entries as u64,
        samples: told.samples,
        major: told.major,
        minor: told.minor,
    }
}

// Reads a header into the table and writes its house form into the output.
#[unsafe(no_mangle)]
pub extern "C" fn vcfh_house(
    header: &[u8],
    imposed: u64,
    major: u32,
    minor: u32,
    form: u64,
    table: &mut [u64],
    out: &mut [u8],
) -> VcfhForm
    ensures answer { result ≡ form_in_c (read_into (form_by form) (imposed_by imposed major minor) table.old header.now)
        (house (limits_by (form_by form)) (imposed_by imposed major minor) (room (form_by form) table.old) (length out.old) header.now) }
    ensures table { table.new ≡ stored (form_by form) table.old 0
        (read_into (form_by form) (imposed_by imposed major minor) table.old header.now).entries }
    ensures output { out.new ≡ sets out.old 0
        (house (limits_by (form_by form)) (imposed_by imposed major minor) (room (form_by form) table.old) (length out.old) header.now).form }
{
    let version = imposed_by(imposed, major, minor);
    let named = form_of(form);
    let answer = house::form::house_form(header, version, named, table, out);
    let outcome = answer.outcome;
    let number = number_of(outcome);
    VcfhForm {
        number,
        line: answer.line as u64,
        start: answer.start as u64,
        entries: answer.entries as u64,
        length: answer.length as u64,
    }
}

// Reads a header into the table and writes both dictionaries of BCF, pairs of an entry's number and its ID's number.
#[unsafe(no_mangle)]
pub extern "C" fn vcfh_dictionaries(
    header: &[u8],
    imposed: u64,
    major: u32,
    minor: u32,
    form: u64,
    table: &mut [u64],
    strings: &mut [u64],
    contigs: &mut [u64],
) -> VcfhDictionaries
    ensures answer { result ≡ dictionaries_in_c (read_into (form_by form) (imposed_by imposed major minor) table.old header.now)
        (dictionaries_in (form_by form) (imposed_by imposed major minor) header.now table.old strings.old contigs.old) }
    ensures table { table.new ≡ stored (form_by form) table.old 0
        (read_into (form_by form) (imposed_by imposed major minor) table.old header.now).entries }
    ensures strings { strings.new ≡ sets strings.old 0
        (dictionaries_in (form_by form) (imposed_by imposed major minor) header.now table.old strings.old contigs.old).strings }
    ensures contigs { contigs.new ≡ sets contigs.old 0
        (dictionaries_in (form_by form) (imposed_by imposed major minor) header.now table.old strings.old contigs.old).contigs }
{
    let version = imposed_by(imposed, major, minor);
    let named = form_of(form);
    let answer = dictionary::string_maps::dictionaries(
        header, version, named, table, strings, contigs,
    );
    let outcome = answer.outcome;
    let number = dictionary::string_maps::number(outcome);
    VcfhDictionaries {
        number,
        line: answer.line as u64,
        start: answer.start as u64,
        entries: answer.entries as u64,
        strings: answer.strings as u64,
        contigs: answer.contigs as u64,
    }
}

// Reads a header into the table, and its cell register.
#[unsafe(no_mangle)]
pub extern "C" fn vcfh_register(
    header: &[u8],
    imposed: u64,
    major: u32,
    minor: u32,
    form: u64,
    table: &mut [u64],
) -> VcfhRegister
    ensures answer { result ≡ register_as (register_of (limits_by (form_by form)) (imposed_by imposed major minor) (room (form_by form) table.old) header.now) }
    ensures table { table.new ≡ stored (form_by form) table.old 0
        (read_into (form_by form) (imposed_by imposed major minor) table.old header.now).entries }
{
    let version = imposed_by(imposed, major, minor);
    let named = form_of(form);
    let answer = probe::register(header, version, named, table);
    let outcome = answer.outcome;
    let number = probe::number(outcome);
    let constants = answer.constants;
    VcfhRegister {
        number,
        line: answer.line as u64,
        start: answer.start as u64,
        entries: answer.entries as u64,
        constants,
    }
}

// The wells in which the constants of two registers differ, whatever they are.
#[unsafe(no_mangle)]
pub extern "C" fn vcfh_compare(old: VcfhRegister, new: VcfhRegister) -> VcfhDifferences
    ensures { result ≡ differences_as (differing 1 old.constants new.constants) }
{
    let had = old.constants;
    let has = new.constants;
    let found = compare::compare(had, has);
    let wells = found.wells;
    let before = found.old;
    let after = found.new;
    VcfhDifferences {
        count: found.count as u64,
        wells,
        old: before,
        new: after,
    }
}

// Writes a contig line for each `@SQ` line of a SAM header into the output.
#[unsafe(no_mangle)]
pub extern "C" fn vcfh_contigs(sam: &[u8], out: &mut [u8]) -> VcfhContigs
    ensures answer { result ≡ contigs_in_c (contigs_fitting (length out.old) sam.now) }
    ensures output { out.new ≡ sets out.old 0
        (contig_lines (contigs_fitting (length out.old) sam.now).contigs) }
{
    let answer = sam::contigs::contigs(sam, out);
    let outcome = answer.outcome;
    let number = sam::contigs::number(outcome);
    VcfhContigs {
        number,
        line: answer.line as u64,
        start: answer.start as u64,
        contigs: answer.contigs as u64,
        length: answer.length as u64,
    }
}

// The line of an entry, from 0, or the sample name.
#[unsafe(no_mangle)]
pub extern "C" fn vcfh_entry(header: &[u8], table: &[u64], form: u64, entry: u64) -> VcfhPart
    ensures { result ≡ part_of (shown_entry (form_by form) header.now table.now entry) }
{
    let shown = header::shown::entry(header, table, form_of(form), entry as usize);
    part_of(shown)
}

// The ID of an entry, without quotes.
#[unsafe(no_mangle)]
pub extern "C" fn vcfh_id(header: &[u8], table: &[u64], form: u64, entry: u64) -> VcfhPart
    ensures { result ≡ part_of (shown_id (form_by form) header.now table.now entry) }
{
    let shown = header::shown::id(header, table, form_of(form), entry as usize);
    part_of(shown)
}

// The key of an entry, after its `##`, and how many fields its record has, in the second form; its line is not read.
#[unsafe(no_mangle)]
pub extern "C" fn vcfh_key(header: &[u8], table: &[u64], form: u64, entry: u64) -> VcfhKey
    ensures { result ≡ key_shown_in (shown_key (form_by form) header.now table.now entry) }
{
    let shown = header::shown::key(header, table, form_of(form), entry as usize);
    key_of(shown)
}

// Field `field`, from 0, of an entry, key through value; the entry's line is read again, under the version given.
#[unsafe(no_mangle)]
pub extern "C" fn vcfh_field(
    header: &[u8],
    table: &[u64],
    form: u64,
    entry: u64,
    major: u32,
    minor: u32,
    field: u64,
) -> VcfhPart
    ensures { result ≡ part_of (shown_field (form_by form) header.now table.now entry (version major minor) field) }
{
    let under = FileFormat::new(major, minor);
    let shown = header::shown::field(
        header,
        table,
        form_of(form),
        entry as usize,
        under,
        field as usize,
    );
    part_of(shown)
}

// The numbers of the entries that carry a number with a sign or a leading zero, in table order, by the version given.
#[unsafe(no_mangle)]
pub extern "C" fn vcfh_odd(
    header: &[u8],
    table: &[u64],
    form: u64,
    major: u32,
    minor: u32,
    list: &mut [u64],
) -> VcfhOdd
    ensures answer { result ≡ odd_as (odd_answer (length list.old) (odd_in (form_by form) header.now table.now (version major minor))) }
    ensures list { list.new ≡ odd_list list.old (odd_in (form_by form) header.now table.now (version major minor)) }
{
    let under = FileFormat::new(major, minor);
    let answer = odd::odd_entries(header, table, form_of(form), under, list);
    let outcome = answer.outcome;
    let number = odd::number(outcome);
    VcfhOdd {
        number,
        listed: answer.listed as u64,
    }
}

// The entries of a table of the first form, in one of the second; their lines are read again, under the version given.
#[unsafe(no_mangle)]
pub extern "C" fn vcfh_to_second(
    header: &[u8],
    first: &[u64],
    major: u32,
    minor: u32,
    second: &mut [u64],
) -> VcfhTurned
    ensures answer { result ≡ turned_as (turn_answer (to_second (version major minor)) header.now first.now second.old) }
    ensures table { second.new ≡ turn_table (to_second (version major minor)) header.now first.now second.old }
{
    let under = FileFormat::new(major, minor);
    turned(turn::to_second(header, first, second, under))
}

// The entries of a table of the second form, in one of the first.
#[unsafe(no_mangle)]
pub extern "C" fn vcfh_to_first(header: &[u8], second: &[u64], first: &mut [u64]) -> VcfhTurned
    ensures answer { result ≡ turned_as (turn_answer to_first header.now second.now first.old) }
    ensures table { first.new ≡ turn_table to_first header.now second.now first.old }
{
    turned(turn::to_first(header, second, first))
}

// An answer as of a reading; 1 if the header is its own house form, else 0; and where an accepted one and its form first differ.
#[repr(C)]
#[derive(Clone, Copy)]
pub struct VcfhVerdict {
    pub number: u64,
    pub line: u64,
    pub start: u64,
    pub entries: u64,
    pub house: u64,
    pub differs: u64,
}

fn flag_of(b: bool) -> u64
    ensures { result ≡ flag b }
{
    u64::from(b)
}

// Reads a header into the table and says whether it is its own house form.
#[unsafe(no_mangle)]
pub extern "C" fn vcfh_is_house(
    header: &[u8],
    imposed: u64,
    major: u32,
    minor: u32,
    form: u64,
    table: &mut [u64],
) -> VcfhVerdict
    ensures answer { result ≡ verdict_in_c (read_into (form_by form) (imposed_by imposed major minor) table.old header.now)
        (is_house (limits_by (form_by form)) (imposed_by imposed major minor) (room (form_by form) table.old) header.now) }
    ensures table { table.new ≡ stored (form_by form) table.old 0
        (read_into (form_by form) (imposed_by imposed major minor) table.old header.now).entries }
{
    let version = imposed_by(imposed, major, minor);
    let named = form_of(form);
    let answer = house::form::is_house(header, version, named, table);
    let outcome = answer.outcome;
    let number = number_of(outcome);
    let house = flag_of(answer.holds);
    VcfhVerdict {
        number,
        line: answer.line as u64,
        start: answer.start as u64,
        entries: answer.entries as u64,
        house,
        differs: answer.differs as u64,
    }
}
