// A header over the cable: pieces go into a lent buffer, and each line is read when its LF is there, the last one when the sender closes.
ghost use Rattle.std.specs.Prelude.{◌≡◌, ◌+◌, ◌^◌, ◌≤◌, ◌<◌, leb, length};
ghost use Rattle.std.proofs.lemmas.List.Edits.{sets};
ghost use Rattle.records.specs.Refusals.{number};
ghost use Rattle.header.specs.Verdicts.{imposed_of};
ghost use Rattle.header.specs.Parsers.{answer_means, spot_in, refused_at};
ghost use Rattle.feed.specs.Feeding.{start_of, is_sound, broken, has_room, so_far, ended_state, piece_fed, feed_of, close_of};
ghost use Rattle.feed.specs.Calls.{feed_number, state_means, told, feed_means, ReadsComplete, ReadsRest, Leaves, Closes};

use entries::form::Form;
use entries::formed;
use header::parser;
use header::parser::{Parser, ReadAnswer};
use lines::line;
use records::file_format::FileFormat;
use records::refusal::Refusal;

// Between two calls: the version imposed, how far the lines are read, how many bytes of the buffer are held, and the final answer once
// there is one.
#[derive(Clone, Copy)]
pub struct FeedState {
    pub imposed: Option<FileFormat>,
    pub parser: Parser,
    pub held: usize,
    pub ended: Option<ReadAnswer>,
}

// So far no line is refused; or as a reading ends. A broken state is refused as an entry is that is not well formed.
pub type FeedOutcome = Option<Result<(FileFormat, usize), Refusal>>;

// 0 if nothing is refused.
pub fn number(outcome: FeedOutcome) -> u64
    ensures { result ≡ feed_number outcome }
{
    match outcome {
        None => 0,
        Some(Ok((_, _))) => 0,
        Some(Err(x)) => x.number(),
    }
}

// The state for the next call; the outcome, with the line and its start, or the lines and bytes so far, and how many entries the table keeps.
#[derive(Clone, Copy)]
pub struct FeedAnswer {
    pub state: FeedState,
    pub outcome: FeedOutcome,
    pub line: usize,
    pub start: usize,
    pub entries: usize,
}

// Before the first piece.
pub fn start(imposed: Option<FileFormat>) -> FeedState
    ensures { state_means result ≡ start_of (imposed_of imposed) }
{
    FeedState {
        imposed,
        parser: Parser::new(),
        held: 0,
        ended: None,
    }
}

// Whether a call can go by the state.
pub fn is_sound(state: FeedState, form: Form, buffer: &[u8], table: &[u64]) -> bool
    ensures { result ≡ is_sound form (state_means state) buffer.now table.now }
{
    let held = state.held;
    let parser = state.parser;
    held <= buffer.len()
        && parser.fits(form, held, table)
        && formed::all_formed(&buffer[..held], table, form, parser.count)
}

// Whether so many more bytes are within the size.
fn fits_more(size: usize, held: usize, more: usize) -> bool
    ensures { result ≡ leb (held + more) size }
{
    held <= size && more <= size - held
}

fn has_room(form: Form, held: usize, piece: &[u8], buffer: &[u8]) -> bool
    ensures { result ≡ has_room form held piece.now buffer.now }
{
    let limits = form.limits();
    fits_more(buffer.len(), held, piece.len()) && fits_more(limits.header, held, piece.len())
}

fn refuse_broken(state: FeedState) -> FeedAnswer
    ensures { feed_means result ≡ told (state_means state) broken }
{
    FeedAnswer {
        state,
        outcome: Some(Err(Refusal::InvalidEntry)),
        line: 0,
        start: 0,
        entries: 0,
    }
}

fn so_far(state: FeedState) -> FeedAnswer
    ensures { feed_means result ≡ told (state_means state) (so_far (state_means state).held (state_means state).spot) }
{
    let parser = state.parser;
    FeedAnswer {
        state,
        outcome: None,
        line: parser.line,
        start: state.held,
        entries: parser.count,
    }
}

// A final answer.
fn answer(state: FeedState, a: ReadAnswer) -> FeedAnswer
    ensures { feed_means result ≡ told (state_means state) (answer_means a) }
{
    let outcome = a.outcome;
    match outcome {
        Ok((version, samples)) => FeedAnswer {
            state,
            outcome: Some(Ok((version, samples))),
            line: a.line,
            start: a.start,
            entries: a.entries,
        },
        Err(x) => FeedAnswer {
            state,
            outcome: Some(Err(x)),
            line: a.line,
            start: a.start,
            entries: a.entries,
        },
    }
}

// The answer that the state ends with.
fn end(imposed: Option<FileFormat>, parser: Parser, held: usize, a: ReadAnswer) -> FeedAnswer
    ensures { feed_means result ≡ told (ended_state (imposed_of imposed) (spot_in parser) held (answer_means a)) (answer_means a) }
{
    let state = FeedState {
        imposed,
        parser,
        held,
        ended: Some(a),
    };
    answer(state, a)
}

// The line where the parser stands is refused.
fn stop(imposed: Option<FileFormat>, parser: Parser, held: usize, x: Refusal) -> FeedAnswer
    requires { parser.line + 1 < 2 ^ 64 }
    ensures { feed_means result ≡ told (ended_state (imposed_of imposed) (spot_in parser) held (refused_at (number x) (spot_in parser))) (refused_at (number x) (spot_in parser)) }
{
    let a = ReadAnswer {
        outcome: Err(x),
        line: parser.line + 1,
        start: parser.at,
        entries: parser.count,
    };
    end(imposed, parser, held, a)
}

// Reads the complete lines of the bytes held, h.
fn read_complete(state: FeedState, form: Form, h: &[u8], table: &mut [u64]) -> FeedAnswer
    ensures { ReadsComplete form (state_means state) h.now table.old result table.new }
{
    let imposed = state.imposed;
    let parser = state.parser;
    let held = state.held;
    let end = line::last_end(h, parser.at);
    match parser::read_on(h, end, parser, imposed, form, table) {
        Ok(p) => so_far(FeedState {
            imposed,
            parser: p,
            held,
            ended: None,
        }),
        Err((p, x)) => stop(imposed, p, held, x),
    }
}

// Copies a piece that fits whole, and gives the place after it.
fn put_piece(buffer: &mut [u8], held: usize, piece: &[u8]) -> usize
    requires { held + length piece.now ≤ length buffer.old }
    ensures place { result ≡ held + length piece.now }
    ensures buffer { buffer.new ≡ sets buffer.old held piece.now }
{
    // Kept: `copy_from_slice` would ask whoever links the archive for `memmove` too.
    for k in 0..piece.len() {
        buffer[held + k] = piece[k];
    }
    held + piece.len()
}

// Copies a piece that fits whole, and reads.
fn take_piece(
    state: FeedState,
    piece: &[u8],
    form: Form,
    buffer: &mut [u8],
    table: &mut [u64],
) -> FeedAnswer
    ensures { Leaves (piece_fed form (state_means state) piece.now buffer.old table.old) result buffer.new table.new }
{
    let imposed = state.imposed;
    let parser = state.parser;
    let held = state.held;
    if !has_room(form, held, piece, buffer) {
        let a = ReadAnswer {
            outcome: Err(Refusal::HeaderTooLong),
            line: 0,
            start: 0,
            entries: parser.count,
        };
        return end(imposed, parser, held, a);
    }
    let now = put_piece(buffer, held, piece);
    let taken = FeedState {
        imposed,
        parser,
        held: now,
        ended: None,
    };
    read_complete(taken, form, &buffer[..now], table)
}

// Takes a piece into the buffer, after the bytes held, and reads the lines that are complete then into the table.
pub fn feed(
    state: FeedState,
    piece: &[u8],
    form: Form,
    buffer: &mut [u8],
    table: &mut [u64],
) -> FeedAnswer
    ensures { Leaves (feed_of form (state_means state) piece.now buffer.old table.old) result buffer.new table.new }
{
    if !is_sound(state, form, buffer, table) {
        return refuse_broken(state);
    }
    let ended = state.ended;
    match ended {
        Some(a) => answer(state, a),
        None => take_piece(state, piece, form, buffer, table),
    }
}

// Reads all that is left of the bytes held, h.
fn read_rest(state: FeedState, form: Form, h: &[u8], table: &mut [u64]) -> FeedAnswer
    ensures { ReadsRest form (state_means state) h.now table.old result table.new }
{
    let imposed = state.imposed;
    let parser = state.parser;
    let held = state.held;
    match parser::read_on(h, held, parser, imposed, form, table) {
        Ok(p) => end(imposed, p, held, p.finish()),
        Err((p, x)) => stop(imposed, p, held, x),
    }
}

// The sender has no more: what is left is the last line.
pub fn close(state: FeedState, form: Form, buffer: &[u8], table: &mut [u64]) -> FeedAnswer
    ensures { Closes (close_of form (state_means state) buffer.now table.old) result table.new }
{
    if !is_sound(state, form, buffer, table) {
        return refuse_broken(state);
    }
    let held = state.held;
    let ended = state.ended;
    match ended {
        Some(a) => answer(state, a),
        None => read_rest(state, form, &buffer[..held], table),
    }
}
