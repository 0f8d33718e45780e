// The entries that carry a number that is not plainly spelled: with a sign, or with a leading zero.
ghost use Rattle.std.specs.Prelude.{◌≡◌, [], ◌∷◌, length};
ghost use Rattle.std.proofs.lemmas.List.Edits.{sets};
ghost use Rattle.rules.specs.Shown.{entry_record};
ghost use Rattle.rules.specs.Spelling.{record_odd, is_read_again, entry_odd};
ghost use Rattle.records.specs.Formats.{version_of};
ghost use Rattle.entries.specs.Values.{entry_of, limits_by};
ghost use Rattle.entries.specs.Tables.{entry_at};
ghost use Rattle.spelling.specs.Odd.{spelling_means, outcome_number, odd_in, Counts, Walks, odd_answer, odd_list};

use alone::read;
use alone::read::Alone;
use entries::entry::Entry;
use entries::form::Form;
use entries::{kind, shown, table};
use records::file_format::FileFormat;

pub type OddOutcome = Result<(), OddRefusal>;

#[derive(Clone, Copy)]
pub enum OddRefusal {
    NotWellFormed,
    ListTooShort,
}

// How many entries were listed; none if the call is refused.
#[derive(Clone, Copy)]
pub struct OddAnswer {
    pub outcome: OddOutcome,
    pub listed: usize,
}

// Document 02's number; 0 if the entries are listed.
pub fn number(outcome: OddOutcome) -> u64
    ensures { result ≡ outcome_number outcome }
{
    match outcome {
        Ok(()) => 0,
        Err(OddRefusal::NotWellFormed) => 29,
        Err(OddRefusal::ListTooShort) => 31,
    }
}

// Kinds 2 to 7, and where keys and fields are counted kinds 1 and 8 too.
fn is_read_again(form: Form, kind: u8) -> bool
    ensures { result ≡ is_read_again (limits_by form).counted kind }
{
    kind::has_id(kind) || matches!(form, Form::Second) && kind <= kind::OTHER_TEXT
}

// An entry's line, read again alone.
// Whether a number of the line is oddly spelled; none where it is not read again as its entry.
fn line_spelling(h: &[u8], form: Form, e: Entry, version: FileFormat) -> Option<bool>
    ensures { spelling_means result ≡ record_odd (version_of version) (entry_record (limits_by form).counted h.now (version_of version) (entry_of e)) }
{
    match read::read_entry(h, form, e, version) {
        Some(Alone::Map(map)) => {
            let tally = map.tally;
            if tally.odd {
                return Some(true);
            }
            Some(false)
        }
        Some(Alone::Plain(_)) => Some(false),
        None => None,
    }
}

fn entry_spelling(
    h: &[u8],
    table: &[u64],
    form: Form,
    n: usize,
    version: FileFormat,
) -> Option<bool>
    ensures { spelling_means result ≡ entry_odd (limits_by form).counted h.now (version_of version)
        (entry_at form h.now table.now n) }
{
    let Some(e) = shown::entry_at(h, table, form, n) else {
        return None;
    };
    if !is_read_again(form, e.kind) {
        return Some(false);
    }
    line_spelling(h, form, e, version)
}

// The word of this number, if there is one.
fn put(list: &mut [u64], at: usize, word: u64)
    ensures { list.new ≡ sets list.old at (word ∷ []) }
{
    if at < list.len() {
        list[at] = word;
    }
}

// Counts the entries that carry an oddly spelled number, and writes their numbers as far as there is room; ends at one that is
// refused.
fn walk(h: &[u8], table: &[u64], form: Form, version: FileFormat, list: &mut [u64]) -> Option<usize>
    ensures { Walks (odd_in form h.now table.now (version_of version)) list.old result list.new }
{
    let mut found: usize = 0;
    for n in 0..table::count(table, form) {
        let Some(odd) = entry_spelling(h, table, form, n, version) else {
            return None;
        };
        if odd {
            put(list, found, n as u64);
            found += 1;
        }
    }
    Some(found)
}

fn count(h: &[u8], table: &[u64], form: Form, version: FileFormat) -> Option<usize>
    ensures { Counts (odd_in form h.now table.now (version_of version)) result }
{
    walk(h, table, form, version, &mut [])
}

// Lists the numbers of the entries that carry an oddly spelled number, in table order. Nothing is written if it is refused.
pub fn odd_entries(
    header: &[u8],
    table: &[u64],
    form: Form,
    version: FileFormat,
    list: &mut [u64],
) -> OddAnswer
    ensures answer { result ≡ odd_answer (length list.old) (odd_in form header.now table.now (version_of version)) }
    ensures list { list.new ≡ odd_list list.old (odd_in form header.now table.now (version_of version)) }
{
    match count(header, table, form, version) {
        None => OddAnswer {
            outcome: Err(OddRefusal::NotWellFormed),
            listed: 0,
        },
        Some(n) => {
            if list.len() < n {
                return OddAnswer {
                    outcome: Err(OddRefusal::ListTooShort),
                    listed: 0,
                };
            }
            walk(header, table, form, version, list);
            OddAnswer {
                outcome: Ok(()),
                listed: n,
            }
        }
    }
}
