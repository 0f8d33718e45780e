// The cell register of a header: forty constants, or why there is none.
ghost use Rattle.std.specs.Prelude.{◌≡◌};
ghost use Rattle.header.specs.Verdicts.{imposed_of};
ghost use Rattle.register.specs.Wells.{table_cells};
ghost use Rattle.register.specs.Answers.{register_number, register_refused_as, AnswersKnown, AnswersRegister, RegisterCall};

use crate::cells;
use entries::form::Form;
use entries::table;
use header::parser;
use header::parser::ReadAnswer;
use records::file_format::FileFormat;
use records::refusal::Refusal;

// What a header's register is found to be. Unread: the header itself is refused.
pub type RegisterOutcome = Result<(), RegisterRefusal>;

#[derive(Clone, Copy)]
pub enum RegisterRefusal {
    Unread(Refusal),
    EarlyVersion,
    UnknownCell,
    MissingWell,
    InvalidConstant,
}

pub fn number(outcome: RegisterOutcome) -> u64
    ensures { result ≡ register_number outcome }
{
    match outcome {
        Ok(()) => 0,
        Err(RegisterRefusal::Unread(x)) => x.number(),
        Err(RegisterRefusal::EarlyVersion) => 37,
        Err(RegisterRefusal::UnknownCell) => 38,
        Err(RegisterRefusal::MissingWell) => 39,
        Err(RegisterRefusal::InvalidConstant) => 40,
    }
}

// The outcome, the line and its start, how many entries the table keeps, and the constants of W01 to W40 in whole hundredths, all 0 if
// the register is refused.
#[derive(Clone, Copy)]
pub struct RegisterRead {
    pub outcome: RegisterOutcome,
    pub line: usize,
    pub start: usize,
    pub entries: usize,
    pub constants: [u64; 40],
}

fn refuse(outcome: RegisterOutcome, line: usize, start: usize, entries: usize) -> RegisterRead
    ensures { result ≡ register_refused_as outcome line start entries }
{
    RegisterRead {
        outcome,
        line,
        start,
        entries,
        constants: [0; 40],
    }
}

// The register of cells whose IDs are all wells'; `lines` are those of the wells.
fn answer_known(
    h: &[u8],
    kept: &[u64],
    form: Form,
    read: ReadAnswer,
    lines: &[usize; 41],
) -> RegisterRead
    ensures { AnswersKnown form read h.now kept.now lines.now result }
{
    let entries = read.entries;
    if cells::is_missing(lines) {
        return refuse(Err(RegisterRefusal::MissingWell), 0, 0, entries);
    }
    let plate = cells::constants(h, kept, form, lines);
    let fault = plate.fault;
    if 0 < fault {
        let start = cells::start_of(kept, form, fault);
        return refuse(Err(RegisterRefusal::InvalidConstant), fault, start, entries);
    }
    let constants = plate.constants;
    RegisterRead {
        outcome: Ok(()),
        line: read.line,
        start: read.start,
        entries,
        constants,
    }
}

// The register of a header that was read and accepted; `kept` are its entries.
fn answer_accepted(
    h: &[u8],
    kept: &[u64],
    form: Form,
    read: ReadAnswer,
    version: FileFormat,
) -> RegisterRead
    ensures { AnswersRegister read version (table_cells form h.now kept.now) result }
{
    let entries = read.entries;
    if version.lt(FileFormat::V4_3) {
        return refuse(Err(RegisterRefusal::EarlyVersion), 0, 0, entries);
    }
    let lines = cells::cell_lines(h, kept, form);
    let unknown = lines[0];
    if 0 < unknown {
        let start = cells::start_of(kept, form, unknown);
        return refuse(Err(RegisterRefusal::UnknownCell), unknown, start, entries);
    }
    answer_known(h, kept, form, read, &lines)
}

// Reads a header into the table, as `read` does, and its register.
pub fn register(
    header: &[u8],
    imposed: Option<FileFormat>,
    form: Form,
    table: &mut [u64],
) -> RegisterRead
    ensures { RegisterCall form (imposed_of imposed) header.now table.old result table.new }
{
    let read = parser::read(header, imposed, form, table);
    let entries = read.entries;
    let outcome = read.outcome;
    match outcome {
        Err(x) => refuse(
            Err(RegisterRefusal::Unread(x)),
            read.line,
            read.start,
            entries,
        ),
        Ok((version, _)) => {
            answer_accepted(
                header,
                table::kept(table, form, entries),
                form,
                read,
                version,
            )
        }
    }
}
