// What the house-form call answers and writes. Asked: the version imposed, the table's words and the output's bytes.
use crate::{reads, text, words};
use entries::form::Form;
use header::parser::Outcome;
use house::form;
use house::form::HouseAnswer;
use records::file_format::FileFormat;
use values::output;

// No byte of UTF-8: it shows which bytes were written.
pub const BLANK: u8 = 255;

pub fn number_of(outcome: Outcome) -> u64 {
    match outcome {
        Ok((_, _)) => 0,
        Err(refusal) => refusal.number(),
    }
}

fn put_answer(out: &mut [u8], answer: HouseAnswer) -> usize {
    let outcome = answer.outcome;
    let at = reads::put_place(
        out,
        0,
        number_of(outcome),
        answer.line,
        answer.start,
        answer.entries,
    );
    text::put_number(out, at, b" length=", answer.length as u64)
}

// How far the output was written, then the output, or its last 64 bytes if it is long.
pub fn put_written(out: &mut [u8], at: usize, form: &[u8]) -> usize {
    let end = text::written_end(form, &BLANK);
    let counted = text::put_number(out, at, b" written=", end as u64);
    let next = output::put_byte(out, counted, b'\n');
    let start = if end <= 2048 { 0 } else { end - 64 };
    output::put_bytes(out, next, &form[start..end])
}

// The form, with the first `room` words of the table.
fn put_form(
    out: &mut [u8],
    header: &[u8],
    imposed: Option<FileFormat>,
    stored: Form,
    table: &mut [u64],
    room: usize,
    form: &mut [u8],
) -> usize {
    let Some(stored_in) = table.get_mut(..room) else {
        return 0;
    };
    form.fill(BLANK);
    let at = put_answer(
        out,
        form::house_form(header, imposed, stored, stored_in, form),
    );
    let changed = text::put_number(
        out,
        at,
        b" changed=",
        text::written_end(table, &reads::UNWRITTEN) as u64,
    );
    put_written(out, changed, form)
}

pub fn put(out: &mut [u8], header: &[u8], asked: &[u8], form: &mut [u8]) -> usize {
    let mut table = reads::unwritten_table();
    let Some(form) = form.get_mut(..words::size(asked, 3)) else {
        return 0;
    };
    put_form(
        out,
        header,
        words::imposed(asked, 1),
        words::form(asked),
        &mut table,
        words::size(asked, 2),
        form,
    )
}
