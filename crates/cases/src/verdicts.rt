// Whether a header is its own house form, asked of the call or of the library for C. Asked: the version imposed and the table's words.
use crate::{house_forms, library, reads, text, words};
use entries::form::Form;
use house::form;
use house::form::IsHouseAnswer;
use records::file_format::FileFormat;

// The verdict, after the place.
fn put_verdict(out: &mut [u8], at: usize, house: u64, differs: u64) -> usize {
    let judged = text::put_number(out, at, b" house=", house);
    text::put_number(out, judged, b" differs=", differs)
}

// How far the table was written.
fn put_changed(out: &mut [u8], at: usize, table: &[u64]) -> usize {
    text::put_number(
        out,
        at,
        b" changed=",
        text::written_end(table, &reads::UNWRITTEN) as u64,
    )
}

fn put_answer(out: &mut [u8], answer: IsHouseAnswer) -> usize {
    let outcome = answer.outcome;
    let at = reads::put_place(
        out,
        0,
        house_forms::number_of(outcome),
        answer.line,
        answer.start,
        answer.entries,
    );
    put_verdict(out, at, u64::from(answer.holds), answer.differs as u64)
}

fn put_judged(
    out: &mut [u8],
    header: &[u8],
    imposed: Option<FileFormat>,
    stored: Form,
    table: &mut [u64],
    room: usize,
) -> usize {
    let Some(table) = table.get_mut(..room) else {
        return 0;
    };
    let answer = form::is_house(header, imposed, stored, table);
    put_answer(out, answer)
}

pub fn put(out: &mut [u8], header: &[u8], asked: &[u8]) -> usize {
    let mut table = reads::unwritten_table();
    let at = put_judged(
        out,
        header,
        words::imposed(asked, 1),
        words::form(asked),
        &mut table,
        words::size(asked, 2),
    );
    put_changed(out, at, &table)
}

fn put_judged_in_c(
    out: &mut [u8],
    header: &[u8],
    asked: &[u8],
    table: &mut [u64],
    room: usize,
) -> usize {
    let Some(table) = table.get_mut(..room) else {
        return 0;
    };
    let v = library::imposed_by(asked);
    let a = capi::vcfh_is_house(header, v.imposed, v.major, v.minor, v.form, table);
    let at = reads::put_place(
        out,
        0,
        a.number,
        a.line as usize,
        a.start as usize,
        a.entries as usize,
    );
    put_verdict(out, at, a.house, a.differs)
}

pub fn put_in_c(out: &mut [u8], header: &[u8], asked: &[u8]) -> usize {
    let mut table = reads::unwritten_table();
    let at = put_judged_in_c(out, header, asked, &mut table, words::size(asked, 2));
    put_changed(out, at, &table)
}
