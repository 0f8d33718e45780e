// What the cell register of a header answers, and how far the table was written. Asked: the version imposed and the table's words.
use crate::{reads, text, words};
use entries::form::Form;
use records::file_format::FileFormat;
use register::probe;
use register::probe::RegisterRead;

// Each after a space; a register has no 0.
fn put_constants(out: &mut [u8], at: usize, constants: &[u64; 40]) -> usize {
    let mut next = at;
    for constant in constants {
        if *constant != 0 {
            next = text::put_number(out, next, b" ", *constant);
        }
    }
    next
}

fn put_answer(out: &mut [u8], answer: RegisterRead) -> usize {
    let outcome = answer.outcome;
    let constants = answer.constants;
    let at = reads::put_place(
        out,
        0,
        probe::number(outcome),
        answer.line,
        answer.start,
        answer.entries,
    );
    put_constants(out, at, &constants)
}

fn put_register(
    out: &mut [u8],
    header: &[u8],
    imposed: Option<FileFormat>,
    form: Form,
    table: &mut [u64],
    room: usize,
) -> usize {
    let Some(table) = table.get_mut(..room) else {
        return 0;
    };
    put_answer(out, probe::register(header, imposed, form, table))
}

pub fn put(out: &mut [u8], header: &[u8], asked: &[u8]) -> usize {
    let mut table = reads::unwritten_table();
    let at = put_register(
        out,
        header,
        words::imposed(asked, 1),
        words::form(asked),
        &mut table,
        words::size(asked, 2),
    );
    let written = text::written_end(&table, &reads::UNWRITTEN);
    text::put_number(out, at, b" changed=", written as u64)
}
