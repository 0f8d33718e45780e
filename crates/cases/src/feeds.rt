// Headers in pieces. Asked `cut`: the version imposed and the table's words; the input is sent in pieces of one byte, in two at every place
// and in others, and all must come to the same. Asked `feed`: the version imposed, the table's words and the buffer's bytes, then what is
// done: `+N` the next N bytes of the input are a piece, `c` a close, `held=N`, `at=N`, `line=N`, `count=N`, `phase=P`, `over` and `open`
// forge the state, `wK=N` a word of the table, `bK=N` a byte of the buffer.
use crate::{house_forms, reads, text, words};
use entries::form::Form;
use feed::cable;
use feed::cable::{FeedAnswer, FeedState};
use header::parser::{Parser, ReadAnswer};
use header::phase::Phase;
use records::file_format::FileFormat;
use values::{bytes, integer, output};

fn put_answer(out: &mut [u8], at: usize, answer: FeedAnswer) -> usize {
    let outcome = answer.outcome;
    let next = reads::put_place(
        out,
        at,
        cable::number(outcome),
        answer.line,
        answer.start,
        answer.entries,
    );
    match outcome {
        None => output::put_bytes(out, next, b" more"),
        Some(Ok((version, samples))) => reads::put_accepted(out, next, version, samples),
        Some(Err(_)) => next,
    }
}

// How an input is cut: its first piece, the most bytes of a later one, and where these are no even ones the number that they come from.
#[derive(Clone, Copy)]
struct Cuts {
    first: usize,
    most: usize,
    seed: u64,
}

// The bytes of the piece of this number.
fn piece_size(cuts: Cuts, k: usize) -> usize {
    if cuts.seed == 0 {
        return cuts.most;
    }
    let x = ((k % 65536) as u64) * 40503 + cuts.seed % 65536 * 25173;
    let y = x % 65521 * 31321 % 65521;
    (y % ((cuts.most % 65535 + 1) as u64)) as usize
}

// Where a piece of so many bytes ends.
fn piece_end(input: &[u8], at: usize, size: usize) -> usize {
    input.len().min(at.saturating_add(size))
}

// The pieces after the first, one after the other.
fn send_rest(
    input: &[u8],
    cuts: Cuts,
    first: FeedState,
    form: Form,
    buffer: &mut [u8],
    table: &mut [u64],
) -> FeedState {
    let mut state = first;
    let mut at = cuts.first;
    for k in 0..3000000 {
        if input.len() <= at {
            return state;
        }
        let end = piece_end(input, at, piece_size(cuts, k));
        let answer = cable::feed(state, bytes::part(input, at, end), form, buffer, table);
        state = answer.state;
        at = end;
    }
    state
}

// The input in pieces, then the close.
fn send(
    input: &[u8],
    cuts: Cuts,
    imposed: Option<FileFormat>,
    form: Form,
    buffer: &mut [u8],
    table: &mut [u64],
) -> FeedAnswer {
    let piece = bytes::part(input, 0, cuts.first);
    let first = cable::feed(cable::start(imposed), piece, form, buffer, table);
    let begun = first.state;
    let state = send_rest(input, cuts, begun, form, buffer, table);
    cable::close(state, form, buffer, table)
}

// The same, and what came of it.
fn put_sent(
    out: &mut [u8],
    input: &[u8],
    cuts: Cuts,
    asked: &[u8],
    buffer: &mut [u8],
    table: &mut [u64],
) -> usize {
    table.fill(reads::UNWRITTEN);
    let answer = send(
        input,
        cuts,
        words::imposed(asked, 1),
        words::form(asked),
        buffer,
        table,
    );
    let at = put_answer(out, 0, answer);
    reads::put_table(out, at, table)
}

// Whether these cuts come to the same.
fn agrees(
    input: &[u8],
    cuts: Cuts,
    asked: &[u8],
    buffer: &mut [u8],
    table: &mut [u64],
    came: &[u8],
) -> bool {
    let mut again = io::buffer();
    let end = put_sent(&mut again, input, cuts, asked, buffer, table);
    bytes::part(&again, 0, end) == came
}

// In two at every place; the first place where it comes to something else.
fn halves(
    input: &[u8],
    asked: &[u8],
    buffer: &mut [u8],
    table: &mut [u64],
    came: &[u8],
) -> Option<usize> {
    for place in 0..=input.len() {
        let cuts = Cuts {
            first: place,
            most: input.len(),
            seed: 0,
        };
        if !agrees(input, cuts, asked, buffer, table, came) {
            return Some(place);
        }
    }
    None
}

// The same for pieces of any sizes: the first number that they come from.
fn uneven(
    input: &[u8],
    most: usize,
    asked: &[u8],
    buffer: &mut [u8],
    table: &mut [u64],
    came: &[u8],
) -> Option<u64> {
    for seed in 1..6 {
        let cuts = Cuts {
            first: 0,
            most,
            seed,
        };
        if !agrees(input, cuts, asked, buffer, table, came) {
            return Some(seed);
        }
    }
    None
}

// Past what came: which cuts come to something else, if some do. A short input is cut in two at every place.
fn put_others(
    out: &mut [u8],
    at: usize,
    input: &[u8],
    asked: &[u8],
    buffer: &mut [u8],
    table: &mut [u64],
    came: &[u8],
) -> usize {
    let most = if 5000 < input.len() { 23000 } else { 23 };
    if let Some(seed) = uneven(input, most, asked, buffer, table, came) {
        return text::put_number(out, at, b" but not by ", seed);
    }
    if 400 < input.len() {
        return at;
    }
    if let Some(place) = halves(input, asked, buffer, table, came) {
        return text::put_number(out, at, b" but not at ", place as u64);
    }
    at
}

// A long input is not cut into single bytes.
fn put_cuts(
    out: &mut [u8],
    input: &[u8],
    asked: &[u8],
    buffer: &mut [u8],
    table: &mut [u64],
) -> usize {
    let most = if 5000 < input.len() { 1000 } else { 1 };
    let cuts = Cuts {
        first: 0,
        most,
        seed: 0,
    };
    let end = put_sent(out, input, cuts, asked, buffer, table);
    let mut came = io::buffer();
    output::put_bytes(&mut came, 0, bytes::part(out, 0, end));
    put_others(
        out,
        end,
        input,
        asked,
        buffer,
        table,
        bytes::part(&came, 0, end),
    )
}

// Where a list of things to do stands: the state, how much of the input is sent, and where the next answer is put.
#[derive(Clone, Copy)]
struct Doing {
    state: FeedState,
    sent: usize,
    at: usize,
}

// The number after a label.
fn after(word: &[u8], label: &[u8]) -> Option<(u64, bool)> {
    match word.strip_prefix(label) {
        Some(number) => integer::parse_u64(number),
        None => None,
    }
}

fn phase_of(word: &[u8], phase: Phase) -> Phase {
    match word {
        b"phase=E" => Phase::Empty,
        b"phase=R" => Phase::Ready(FileFormat::V4_3),
        b"phase=r" => Phase::Ready(FileFormat { major: 4, minor: 2 }),
        b"phase=D" => Phase::Done(FileFormat::V4_3, 5),
        _ => phase,
    }
}

fn forged(word: &[u8], label: &[u8], old: usize) -> usize {
    match after(word, label) {
        Some((n, _)) => n as usize,
        None => old,
    }
}

fn forged_end(word: &[u8], ended: Option<ReadAnswer>) -> Option<ReadAnswer> {
    match word {
        b"open" => None,
        b"over" => Some(ReadAnswer {
            outcome: Ok((FileFormat::V4_5, 9)),
            line: 8,
            start: 7,
            entries: 6,
        }),
        _ => ended,
    }
}

fn forged_state(word: &[u8], state: FeedState) -> FeedState {
    let imposed = state.imposed;
    let old = state.parser;
    let old_phase = old.phase;
    let old_end = state.ended;
    let phase = phase_of(word, old_phase);
    let parser = Parser {
        phase,
        line: forged(word, b"line=", old.line),
        at: forged(word, b"at=", old.at),
        count: forged(word, b"count=", old.count),
    };
    let ended = forged_end(word, old_end);
    FeedState {
        imposed,
        parser,
        held: forged(word, b"held=", state.held),
        ended,
    }
}

fn forge_word(word: &[u8], table: &mut [u64]) {
    let k = forged(text::nth(word, b'=', 0), b"w", table.len());
    let Some(place) = table.get_mut(k) else {
        return;
    };
    match integer::parse_u64(text::nth(word, b'=', 1)) {
        Some((n, _)) => *place = n,
        None => {}
    }
}

fn forge_byte(word: &[u8], buffer: &mut [u8]) {
    let k = forged(text::nth(word, b'=', 0), b"b", buffer.len());
    let Some(place) = buffer.get_mut(k) else {
        return;
    };
    match integer::parse_u64(text::nth(word, b'=', 1)) {
        Some((n, _)) => *place = (n % 256) as u8,
        None => {}
    }
}

// An answer after those before it.
fn answered(out: &mut [u8], doing: Doing, sent: usize, answer: FeedAnswer) -> Doing {
    let parted = output::put_bytes(out, doing.at, b"; ");
    let at = put_answer(out, parted, answer);
    let state = answer.state;
    Doing { state, sent, at }
}

fn do_one(
    out: &mut [u8],
    word: &[u8],
    input: &[u8],
    form: Form,
    buffer: &mut [u8],
    table: &mut [u64],
    doing: Doing,
) -> Doing {
    let state = doing.state;
    let sent = doing.sent;
    let at = doing.at;
    if word == b"c".as_slice() {
        let answer = cable::close(state, form, buffer, table);
        return answered(out, doing, sent, answer);
    }
    match after(word, b"+") {
        Some((n, _)) => {
            let end = piece_end(input, sent, n as usize);
            let piece = bytes::part(input, sent, end);
            let answer = cable::feed(state, piece, form, buffer, table);
            answered(out, doing, end, answer)
        }
        None => {
            forge_word(word, table);
            forge_byte(word, buffer);
            let next = forged_state(word, state);
            Doing {
                state: next,
                sent,
                at,
            }
        }
    }
}

fn do_all(
    out: &mut [u8],
    input: &[u8],
    asked: &[u8],
    form: Form,
    buffer: &mut [u8],
    table: &mut [u64],
) -> Doing {
    let state = cable::start(words::imposed(asked, 1));
    let mut doing = Doing {
        state,
        sent: 0,
        at: 0,
    };
    for n in 4..200 {
        let word = words::word(asked, n);
        if word.is_empty() {
            return doing;
        }
        doing = do_one(out, word, input, form, buffer, table, doing);
    }
    doing
}

fn put_phase(out: &mut [u8], at: usize, phase: Phase) -> usize {
    match phase {
        Phase::Empty => output::put_bytes(out, at, b" | empty"),
        Phase::Ready(version) => {
            let major = text::put_number(out, at, b" | ready ", version.major as u64);
            text::put_number(out, major, b".", version.minor as u64)
        }
        Phase::Done(version, samples) => {
            let major = text::put_number(out, at, b" | done ", version.major as u64);
            let minor = text::put_number(out, major, b".", version.minor as u64);
            text::put_number(out, minor, b" ", samples as u64)
        }
    }
}

fn put_ended(out: &mut [u8], at: usize, ended: Option<ReadAnswer>) -> usize {
    match ended {
        None => at,
        Some(_) => output::put_bytes(out, at, b" over"),
    }
}

fn put_state(out: &mut [u8], at: usize, state: FeedState) -> usize {
    let parser = state.parser;
    let phase = parser.phase;
    let ended = state.ended;
    let phased = put_phase(out, at, phase);
    let held = text::put_number(out, phased, b" held=", state.held as u64);
    let next = text::put_number(out, held, b" at=", parser.at as u64);
    let lined = text::put_number(out, next, b" line=", parser.line as u64);
    let counted = text::put_number(out, lined, b" count=", parser.count as u64);
    put_ended(out, counted, ended)
}

// What was done leaves: the state, the table's words and the buffer's bytes.
fn put_left(out: &mut [u8], done: Doing, buffer: &[u8], table: &[u64]) -> usize {
    let state = done.state;
    let told = put_state(out, done.at, state);
    let tabled = reads::put_table(out, told, table);
    let labelled = output::put_bytes(out, tabled, b" buffer=");
    let end = text::written_end(buffer, &house_forms::BLANK);
    output::put_bytes(out, labelled, &buffer[..end])
}

fn put_done(
    out: &mut [u8],
    input: &[u8],
    asked: &[u8],
    buffer: &mut [u8],
    table: &mut [u64],
) -> usize {
    buffer.fill(house_forms::BLANK);
    table.fill(reads::UNWRITTEN);
    let done = do_all(out, input, asked, words::form(asked), buffer, table);
    put_left(out, done, buffer, table)
}

pub fn put(out: &mut [u8], input: &[u8], asked: &[u8], buffer: &mut [u8]) -> usize {
    let mut table = reads::unwritten_table();
    let Some(table) = table.get_mut(..words::size(asked, 2)) else {
        return 0;
    };
    if words::is_asked(asked, b"cut") {
        return put_cuts(out, input, asked, buffer, table);
    }
    let Some(buffer) = buffer.get_mut(..words::size(asked, 3)) else {
        return 0;
    };
    put_done(out, input, asked, buffer, table)
}
