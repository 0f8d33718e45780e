// Whether a header is its own house form.
use crate::form::FORM;
use crate::{notes, say, why};
use entries::table;
use house::form;
use records::file_format::FileFormat;

fn say_it(holds: bool, differs: usize) {
    if holds {
        say::text(1, b"yes\n");
    } else {
        say::tell(b"d");
        say::numbered(1, b"no offset=", differs as u64);
        say::text(1, b"\n");
    }
}

pub fn say_verdict(header: &[u8], imposed: Option<FileFormat>, table: &mut [u64]) {
    let answer = form::is_house(header, imposed, FORM, table);
    let outcome = answer.outcome;
    match outcome {
        Ok((version, _)) => {
            say_it(answer.holds, answer.differs);
            notes::say_notes(header, table::kept(table, FORM, answer.entries), version);
        }
        Err(refusal) => {
            say::refused(refusal.number(), answer.line, answer.start);
            why::say_why_no_form(refusal, header, imposed, answer.start);
        }
    }
}
