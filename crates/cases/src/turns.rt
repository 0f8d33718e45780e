// What comes of turning the entries that reading left into the other form. Asked: the words of the table that is read, those of the other
// one, the version under which lines are read again, a word that says nothing, and the words forged.
use crate::{calls, reads, text, words};
use entries::form::Form;
use header::parser;
use records::file_format::FileFormat;
use turning::turn;
use turning::turn::TurnAnswer;

fn put_answer(out: &mut [u8], answer: TurnAnswer) -> usize {
    let outcome = answer.outcome;
    let numbered = text::put_number(out, 0, b"number=", turn::number(outcome));
    text::put_number(out, numbered, b" entries=", answer.entries as u64)
}

// From this form into the other.
fn turn_entries(
    header: &[u8],
    source: &[u64],
    from: Form,
    target: &mut [u64],
    version: FileFormat,
) -> TurnAnswer {
    match from {
        Form::First => turn::to_second(header, source, target, version),
        Form::Second => turn::to_first(header, source, target),
    }
}

// Reads the header into one table, forges words of that, and turns.
fn put_turned(
    out: &mut [u8],
    header: &[u8],
    asked: &[u8],
    source: &mut [u64],
    from: Form,
    target: &mut [u64],
) -> usize {
    parser::read(header, None, from, source);
    calls::forge(source, asked);
    let version = words::version(asked, 3);
    put_answer(out, turn_entries(header, source, from, target, version))
}

// The same with the first words of both tables.
fn put_sized(
    out: &mut [u8],
    header: &[u8],
    asked: &[u8],
    source: &mut [u64],
    from: Form,
    target: &mut [u64],
) -> usize {
    let Some(source) = source.get_mut(..words::size(asked, 1)) else {
        return 0;
    };
    let Some(target) = target.get_mut(..words::size(asked, 2)) else {
        return 0;
    };
    put_turned(out, header, asked, source, from, target)
}

pub fn put(out: &mut [u8], header: &[u8], asked: &[u8], from: Form) -> usize {
    let mut source = [0u64; 64];
    let mut target = [reads::UNWRITTEN; 64];
    let at = put_sized(out, header, asked, &mut source, from, &mut target);
    reads::put_table(out, at, &target)
}
