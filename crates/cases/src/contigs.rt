// What a SAM header's contigs answer, and the lines that were written. Asked: the output's bytes.
use crate::{house_forms, text, words};
use sam::contigs;
use sam::contigs::ContigsAnswer;

fn put_answer(out: &mut [u8], answer: ContigsAnswer) -> usize {
    let outcome = answer.outcome;
    let number = text::put_number(out, 0, b"", contigs::number(outcome));
    let line = text::put_number(out, number, b" line=", answer.line as u64);
    let start = text::put_number(out, line, b" start=", answer.start as u64);
    let count = text::put_number(out, start, b" contigs=", answer.contigs as u64);
    text::put_number(out, count, b" length=", answer.length as u64)
}

fn put_lines(out: &mut [u8], sam: &[u8], form: &mut [u8]) -> usize {
    form.fill(house_forms::BLANK);
    let at = put_answer(out, contigs::contigs(sam, form));
    house_forms::put_written(out, at, form)
}

pub fn put(out: &mut [u8], sam: &[u8], asked: &[u8], form: &mut [u8]) -> usize {
    let Some(form) = form.get_mut(..words::size(asked, 1)) else {
        return 0;
    };
    put_lines(out, sam, form)
}
