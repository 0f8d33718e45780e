// A header that is read as it comes, so that a refused line is told before the rest of it is there.
use crate::form::FORM;
use crate::input::Source;
use feed::cable;
use feed::cable::{FeedAnswer, FeedState};
use header::parser::ReadAnswer;
use lookup::end;
use records::refusal::Refusal;
use values::bytes;

// Why there is no answer: the buffer is full, or a read failed.
#[derive(Clone, Copy)]
pub enum Unanswered {
    Full(FeedState),
    Failed,
}

// Whether a line begins the column line; the piece goes on after what is held of it.
fn begins_columns(line: &[u8], piece: &[u8]) -> bool {
    line.iter().chain(piece).take(6).eq(b"#CHROM")
}

// How many bytes of a piece are the header's, which ends with its column line.
fn header_part(line: &[u8], piece: &[u8]) -> usize {
    let lf = bytes::find(piece, 0, b'\n');
    if piece.len() <= lf {
        return piece.len();
    }
    let next = lf + 1;
    if begins_columns(line, piece) {
        return next;
    }
    let rest = bytes::part(piece, next, piece.len());
    next + bytes::part(rest, 0, end::header_end(rest)).len()
}

// Feeds what is the header's of a piece; after its column line nothing more is waited for.
pub fn take(state: FeedState, piece: &[u8], buffer: &mut [u8], table: &mut [u64]) -> FeedAnswer {
    let parser = state.parser;
    let end = header_part(bytes::part(buffer, parser.at, state.held), piece);
    let answer = cable::feed(state, bytes::part(piece, 0, end), FORM, buffer, table);
    let next = answer.state;
    let read = next.parser;
    let phase = read.phase;
    if phase.is_done() {
        return cable::close(next, FORM, buffer, table);
    }
    answer
}

// What is there of the input, no more than the buffer has room for, is read once and fed, or the input's end.
fn read_next(
    source: &Source,
    state: FeedState,
    piece: &mut [u8],
    buffer: &mut [u8],
    table: &mut [u64],
) -> Result<FeedAnswer, Unanswered> {
    let most = piece.len().min(buffer.len().saturating_sub(state.held));
    if most == 0 {
        return Err(Unanswered::Full(state));
    }
    let Ok(n) = source.read_some(&mut piece[..most]) else {
        return Err(Unanswered::Failed);
    };
    if n == 0 {
        return Ok(cable::close(state, FORM, buffer, table));
    }
    Ok(take(state, bytes::part(piece, 0, n), buffer, table))
}

// Reads on until an answer is there or the buffer is full.
pub fn read_on(
    source: &Source,
    from: FeedState,
    piece: &mut [u8],
    buffer: &mut [u8],
    table: &mut [u64],
) -> Result<FeedAnswer, Unanswered> {
    let mut state = from;
    for _ in 0..0x1_0000_0000_u64 {
        let answer = read_next(source, state, piece, buffer, table)?;
        if !matches!(answer.outcome, None) {
            return Ok(answer);
        }
        state = answer.state;
    }
    Err(Unanswered::Failed)
}

// The answer as a reading's.
pub fn read_answer(answer: FeedAnswer) -> ReadAnswer {
    let outcome = answer.outcome;
    let told = match outcome {
        None => Err(Refusal::Empty),
        Some(Ok((version, samples))) => Ok((version, samples)),
        Some(Err(x)) => Err(x),
    };
    ReadAnswer {
        outcome: told,
        line: answer.line,
        start: answer.start,
        entries: answer.entries,
    }
}

// The words of a table, in a larger one.
pub fn copy_words(words: &[u64], table: &mut [u64]) {
    for (to, from) in table.iter_mut().zip(words) {
        *to = *from;
    }
}
