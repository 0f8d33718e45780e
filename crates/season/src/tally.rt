// What one header adds to the totals.
ghost use Rattle.std.specs.Prelude.{◌≡◌, []};
ghost use Rattle.records.specs.Refusals.{number};
ghost use Rattle.entries.specs.Tables.{entries_in};
ghost use Rattle.season.specs.Sheet.{tally_of};
ghost use Rattle.season.specs.Answers.{KindsTold};

use crate::place;
use entries::form::Form;
use entries::{kind, table};
use records::refusal::Refusal;

fn kinds(kept: &[u64], form: Form) -> [u64; 39]
    ensures { KindsTold (entries_in form kept.now) result }
{
    let mut tally = [0u64; 39];
    for n in 0..table::count(kept, form) {
        let e = table::get(kept, form, n);
        if kind::FILE_FORMAT <= e.kind && e.kind <= kind::SAMPLE {
            tally[place::ENTRIES + e.kind as usize] += 1;
        }
    }
    tally
}

// `kept` are the entries of an accepted header.
pub fn accepted(kept: &[u64], form: Form) -> [u64; 39]
    ensures { result ≡ tally_of 0 (entries_in form kept.now) }
{
    let mut tally = kinds(kept, form);
    tally[place::READ] = 1;
    tally[place::ACCEPTED] = 1;
    tally
}

pub fn refused(x: Refusal) -> [u64; 39]
    ensures { result ≡ tally_of (number x) [] }
{
    let mut tally = [0u64; 39];
    tally[place::READ] = 1;
    let n = x.number();
    // No reading is refused by 28 or 29 (`Numbers.reading_low`).
    if n <= 27 {
        tally[n as usize + place::REFUSED] = 1;
    }
    tally
}
