// A header added to the sheet of a season.
ghost use Rattle.std.specs.Prelude.{◌≡◌};
ghost use Rattle.header.specs.Verdicts.{imposed_of};
ghost use Rattle.season.specs.Answers.{add_number, answer_by, AddCall};

use crate::merge::{MergeAnswer, SeasonRefusal};
use crate::{merge, tally};
use entries::form::Form;
use entries::table;
use header::parser;
use header::parser::{Outcome, ReadAnswer};
use records::file_format::FileFormat;
use records::refusal::Refusal;

// Added: the header's own outcome, accepted or refused.
pub type AddOutcome = Result<Outcome, SeasonRefusal>;

// Documents 01's and 02's number; 0 if the header is accepted and added.
pub fn number(outcome: AddOutcome) -> u64
    ensures { result ≡ add_number outcome }
{
    match outcome {
        Ok(Ok((_, _))) => 0,
        Ok(Err(x)) => x.number(),
        Err(SeasonRefusal::TotalTooLarge) => 30,
    }
}

// The outcome, the line and its start, how many entries the table keeps, and the sheet after it: as it was, if a total would overflow.
#[derive(Clone, Copy)]
pub struct AddAnswer {
    pub outcome: AddOutcome,
    pub line: usize,
    pub start: usize,
    pub entries: usize,
    pub sheet: [u64; 39],
}

fn answer(read: ReadAnswer, merged: MergeAnswer) -> AddAnswer
    ensures { result ≡ answer_by read merged.outcome merged.sheet }
{
    let entries = read.entries;
    let sheet = merged.sheet;
    let outcome = merged.outcome;
    match outcome {
        Ok(()) => {
            let own = read.outcome;
            AddAnswer {
                outcome: Ok(own),
                line: read.line,
                start: read.start,
                entries,
                sheet,
            }
        }
        Err(SeasonRefusal::TotalTooLarge) => AddAnswer {
            outcome: Err(SeasonRefusal::TotalTooLarge),
            line: 0,
            start: 0,
            entries,
            sheet,
        },
    }
}

// Reads a header into the table, as `read` does, and adds it to the sheet.
pub fn add(
    header: &[u8],
    imposed: Option<FileFormat>,
    form: Form,
    table: &mut [u64],
    sheet: [u64; 39],
) -> AddAnswer
    ensures { AddCall form (imposed_of imposed) header.now table.old sheet result table.new }
{
    let read = parser::read(header, imposed, form, table);
    let outcome = read.outcome;
    match outcome {
        Err(x) => {
            let tally = tally::refused(x);
            answer(read, merge::merge(sheet, tally))
        }
        Ok((_, _)) => {
            let tally = tally::accepted(table::kept(table, form, read.entries), form);
            answer(read, merge::merge(sheet, tally))
        }
    }
}
