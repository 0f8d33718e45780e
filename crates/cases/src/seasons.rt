// The sheet after headers that are added in turn, with what each answers and how far its table was written; the merge of two sheets.
// Asked: the totals that a sheet has, and of each header its form, the version imposed, the table's words, and where it stands in the input.
use crate::{reads, text, words};
use entries::form::Form;
use records::file_format::FileFormat;
use season::add::AddAnswer;
use season::{add, merge};
use values::{bytes, output};

// Where the output goes on, and the sheet.
#[derive(Clone, Copy)]
struct Counted {
    next: usize,
    sheet: [u64; 39],
}

// `PLACE=TOTAL` for some of the places, parted by commas; the others are 0.
fn sheet_of(totals: &[u8]) -> [u64; 39] {
    let mut sheet = [0u64; 39];
    for i in 0..39 {
        let given = text::nth(totals, b',', i);
        if given.len() < 3 {
            return sheet;
        }
        let place = words::number_in(text::nth(given, b'=', 0));
        let total = words::number_in(text::nth(given, b'=', 1));
        if let Some(old) = sheet.get_mut(place as usize) {
            *old = total;
        }
    }
    sheet
}

// The totals that are not 0.
fn put_sheet(out: &mut [u8], at: usize, sheet: &[u64; 39]) -> usize {
    let mut next = output::put_bytes(out, at, b"sheet");
    for (place, total) in sheet.iter().enumerate() {
        if *total != 0 {
            next = text::put_number(out, next, b" ", place as u64);
            next = text::put_number(out, next, b"=", *total);
        }
    }
    next
}

fn put_answer(out: &mut [u8], at: usize, answer: AddAnswer) -> usize {
    let outcome = answer.outcome;
    reads::put_place(
        out,
        at,
        add::number(outcome),
        answer.line,
        answer.start,
        answer.entries,
    )
}

fn put_added(
    out: &mut [u8],
    at: usize,
    header: &[u8],
    imposed: Option<FileFormat>,
    form: Form,
    table: &mut [u64],
    room: usize,
    sheet: [u64; 39],
) -> Counted {
    let Some(table) = table.get_mut(..room) else {
        return Counted { next: at, sheet };
    };
    let answer = add::add(header, imposed, form, table, sheet);
    let after = answer.sheet;
    let next = put_answer(out, at, answer);
    Counted { next, sheet: after }
}

fn put_header(out: &mut [u8], at: usize, input: &[u8], asked: &[u8], sheet: [u64; 39]) -> Counted {
    let mut table = reads::unwritten_table();
    let start = words::number_in(text::nth(asked, b',', 3)) as usize;
    let end = words::number_in(text::nth(asked, b',', 4)) as usize;
    let added = put_added(
        out,
        at,
        bytes::part(input, start, end),
        words::imposed_by(text::nth(asked, b',', 1)),
        words::form_by(text::nth(asked, b',', 0)),
        &mut table,
        words::number_in(text::nth(asked, b',', 2)) as usize,
        sheet,
    );
    let written = text::written_end(&table, &reads::UNWRITTEN);
    let changed = text::put_number(out, added.next, b" changed=", written as u64);
    let after = added.sheet;
    Counted {
        next: output::put_byte(out, changed, b'\n'),
        sheet: after,
    }
}

pub fn put(out: &mut [u8], input: &[u8], asked: &[u8]) -> usize {
    let mut sheet = sheet_of(words::word(asked, 1));
    let mut next = 0;
    for i in 2..64 {
        let header = words::word(asked, i);
        if !header.is_empty() {
            let counted = put_header(out, next, input, header, sheet);
            next = counted.next;
            sheet = counted.sheet;
        }
    }
    put_sheet(out, next, &sheet)
}

pub fn put_merge(out: &mut [u8], asked: &[u8]) -> usize {
    let answer = merge::merge(
        sheet_of(words::word(asked, 1)),
        sheet_of(words::word(asked, 2)),
    );
    let outcome = answer.outcome;
    let sheet = answer.sheet;
    let next = text::put_number(out, 0, b"", merge::number(outcome));
    let parted = output::put_byte(out, next, b' ');
    put_sheet(out, parted, &sheet)
}
