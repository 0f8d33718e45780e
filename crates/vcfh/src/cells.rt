// The cell register, and what differs from another.
use crate::form::FORM;
use crate::{notes, say, why};
use entries::table;
use records::file_format::FileFormat;
use register::compare::Differences;
use register::probe::{RegisterOutcome, RegisterRead, RegisterRefusal};
use register::{compare, probe};

fn say_well(well: u64) {
    say::text(1, b"W");
    say::decimal(1, well / 10);
    say::decimal(1, well % 10);
}

// Hundredths as a number with two digits after the point.
fn say_constant(n: u64) {
    say::decimal(1, n / 100);
    say::text(1, b".");
    say::decimal(1, n / 10 % 10);
    say::decimal(1, n % 10);
}

fn say_why(outcome: RegisterOutcome, header: &[u8], imposed: Option<FileFormat>, start: usize) {
    match outcome {
        Ok(()) => {}
        Err(RegisterRefusal::Unread(refusal)) => why::say_why(refusal, header, imposed, start),
        Err(RegisterRefusal::EarlyVersion) => {
            say::text(2, b"a cell register needs version 4.3 or later\n")
        }
        Err(RegisterRefusal::UnknownCell) => {
            say::text(2, b"the ID of the cell line is none of W01 to W40\n")
        }
        Err(RegisterRefusal::MissingWell) => {
            say::text(2, b"one of the wells W01 to W40 has no cell line\n")
        }
        Err(RegisterRefusal::InvalidConstant) => {
            say::text(
                2,
                b"the cell line has no K, or its K is not a number such as 0.98, from 0.50 through 2.00\n",
            )
        }
    }
}

// The register of a header; where it is refused, that is said.
fn read(header: &[u8], imposed: Option<FileFormat>, table: &mut [u64]) -> RegisterRead {
    let answer = probe::register(header, imposed, FORM, table);
    let outcome = answer.outcome;
    if !is_accepted(outcome) {
        say::tell(b"n");
        say::refused(probe::number(outcome), answer.line, answer.start);
        say_why(outcome, header, imposed, answer.start);
    }
    answer
}

fn is_accepted(outcome: RegisterOutcome) -> bool {
    matches!(outcome, Ok(()))
}

// Eight wells stand in a row.
fn end_cell(well: u64) {
    say::text(1, if well % 8 == 0 { b"\n" } else { b"  " });
}

fn say_rows(constants: &[u64; 40]) {
    for (well, constant) in (1..).zip(constants) {
        say_well(well);
        say::text(1, b" ");
        say_constant(*constant);
        end_cell(well);
    }
}

fn say_lines(constants: &[u64; 40]) {
    for (well, constant) in (1..).zip(constants) {
        say_well(well);
        say::text(1, b"\t");
        say_constant(*constant);
        say::text(1, b"\n");
    }
}

// The constants of an accepted register, as `say_constants` writes them. None is accepted under a version before 4.3, of which the notes speak.
fn say_register<F: FnOnce(&[u64; 40])>(
    header: &[u8],
    imposed: Option<FileFormat>,
    table: &mut [u64],
    say_constants: F,
)
    requires { F.IsAlwaysCallable say_constants }
{
    let answer = read(header, imposed, table);
    let constants = answer.constants;
    if is_accepted(answer.outcome) {
        say_constants(&constants);
        let entries = table::kept(table, FORM, answer.entries);
        notes::say_notes(header, entries, FileFormat::V4_3);
    }
}

// The plate: five rows of eight wells.
pub fn say_plate(header: &[u8], imposed: Option<FileFormat>, table: &mut [u64]) {
    say_register(header, imposed, table, |constants| say_rows(constants));
}

// A line for each well.
pub fn say_list(header: &[u8], imposed: Option<FileFormat>, table: &mut [u64]) {
    say_register(header, imposed, table, |constants| say_lines(constants));
}

// Keeps the constants to compare with, all 0 if the register is refused.
pub fn keep(header: &[u8], imposed: Option<FileFormat>, table: &mut [u64], had: &mut [u64; 40]) {
    let answer = read(header, imposed, table);
    let constants = answer.constants;
    *had = constants;
}

fn say_differences(found: &Differences) {
    let constants = found.old.iter().zip(&found.new);
    for (well, (had, has)) in found.wells.iter().zip(constants).take(found.count) {
        say_well(*well);
        say::text(1, b"\t");
        say_constant(*had);
        say::text(1, b"\t");
        say_constant(*has);
        say::text(1, b"\n");
    }
}

// The wells that differ from those that were kept; nothing where that register was refused.
pub fn say_changes(header: &[u8], imposed: Option<FileFormat>, table: &mut [u64], had: &[u64; 40]) {
    let answer = read(header, imposed, table);
    if had[0] != 0 && is_accepted(answer.outcome) {
        let found = compare::compare(*had, answer.constants);
        if found.count != 0 {
            say::tell(b"d");
        }
        say_differences(&found);
    }
}
