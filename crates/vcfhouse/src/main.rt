// Reads a header from standard input and writes its house form to standard output, or its refusal to standard error.
#![tactic(auto)]

use entries::form::Form;
use house::form::HouseAnswer;
use records::refusal::Refusal;
use values::bytes;

fn say_refused(refusal: Refusal, line: usize, start: usize) {
    let mut out = io::buffer();
    let end = report::put_refused(&mut out, 0, refusal.number(), line, start);
    io::write_all(2, bytes::part(&out, 0, end));
}

fn say_answer(answer: HouseAnswer, form: &[u8]) {
    let outcome = answer.outcome;
    match outcome {
        Ok((_, _)) => {
            io::write_all(1, bytes::part(form, 0, answer.length));
        }
        Err(refusal) => say_refused(refusal, answer.line, answer.start),
    }
}

// Input that the buffer can't hold is a header too long for this program.
fn main() {
    let mut buffer = io::large_buffer();
    let n = io::read_full(0, &mut buffer);
    let mut more = [0u8; 1];
    if 0 < io::read_full(0, &mut more) {
        say_refused(Refusal::HeaderTooLong, 0, 0);
        return;
    }
    let mut table = [0u64; 8192];
    let mut form = io::large_buffer();
    let answer = house::form::house_form(&buffer[..n], None, Form::First, &mut table, &mut form);
    say_answer(answer, &form);
}
