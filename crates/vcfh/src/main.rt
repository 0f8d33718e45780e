// What bin/vcfh runs. The first argument is `large` where the stack has room for the largest headers. Then three make a case: a command, the version to impose as a fileformat line has it (`-`: none), and a
// file's name (`-`: standard input). The command find- has what is looked for behind it; cells-new compares with the file of the cells-old before it.
// The commands of a season go over any number of files, and then its sheet is printed.
// What came of a case is told on descriptor 3, by which bin/vcfh goes; sentences and notes stand on standard error.
#![tactic(auto)]

mod arguments;
mod asked;
mod cells;
mod contigs;
mod fields;
mod finding;
mod form;
mod input;
mod listing;
mod notes;
mod numbers;
mod page;
mod room;
mod say;
mod spelled;
mod stream;
mod twice;
mod verdict;
mod why;

ghost use Rattle.std.specs.Prelude.{◌<◌, ◌^◌};

use entries::table;
use feed::cable;
use feed::cable::{FeedAnswer, FeedState};
use form::FORM;
use header::parser::ReadAnswer;
use input::{Source, Start};
use lookup::end;
use records::file_format;
use records::file_format::FileFormat;
use std::fs::File;
use stream::Unanswered;
use values::{bytes, output};

// The number of arguments, the number of the one that is the command, the input, and the version that is imposed.
#[derive(Clone, Copy)]
struct Task<'a> {
    rt: HostRuntime,
    arguments: usize,
    command: usize,
    source: &'a Source,
    imposed: Option<FileFormat>,
}

// What a case works in, and what the cases before left: the constants that a comparison goes from, or a season's sheet.
#[derive(Drop)]
struct Memory<'a> {
    table: &'a mut [u64],
    form: &'a mut [u8],
    strings: &'a mut [u64],
    contigs: &'a mut [u64],
    had: &'a mut [u64; 40],
}

fn say_answer(header: &[u8], imposed: Option<FileFormat>, table: &[u64], answer: ReadAnswer) {
    let mut out = io::buffer();
    let end = report::put_answer(&mut out, 0, answer);
    say::text(1, bytes::part(&out, 0, end));
    match answer.outcome {
        Ok((version, _)) => {
            let entries = table::kept(table, FORM, answer.entries);
            notes::say_notes(header, entries, version);
        }
        Err(refusal) => why::say_why(refusal, header, imposed, answer.start),
    }
}

fn check(header: &[u8], imposed: Option<FileFormat>, table: &mut [u64]) {
    let answer = header::parser::read(header, imposed, FORM, table);
    say_answer(header, imposed, table, answer);
}

// What `say` writes of an accepted header's entries, and the notes on it; else why it is refused.
fn say_read<F: FnOnce(&[u64], FileFormat)>(
    header: &[u8],
    imposed: Option<FileFormat>,
    table: &mut [u64],
    say: F,
)
    requires { F.IsAlwaysCallable say }
{
    let answer = header::parser::read(header, imposed, FORM, table);
    match answer.outcome {
        Ok((version, _)) => {
            let entries = table::kept(table, FORM, answer.entries);
            say(entries, version);
            notes::say_notes(header, entries, version);
        }
        Err(refusal) => {
            say::refused(refusal.number(), answer.line, answer.start);
            why::say_why(refusal, header, imposed, answer.start);
        }
    }
}

fn entries(header: &[u8], imposed: Option<FileFormat>, table: &mut [u64]) {
    say_read(
        header,
        imposed,
        table,
        |entries, _| listing::say_entries(header, entries),
    );
}

fn odd(header: &[u8], imposed: Option<FileFormat>, table: &mut [u64], list: &mut [u64]) {
    say_read(header, imposed, table, |entries, version| {
        spelled::say_odd(header, entries, version, list)
    });
}

// The command says what is looked for.
fn find(task: Task<'_>, header: &[u8], table: &mut [u64]) {
    say_read(header, task.imposed, table, |entries, _| {
        finding::say_found(task.rt, task.arguments, header, entries, task.command)
    });
}

// A header that is not read is refused as the listing of its entries is.
fn dictionary(
    header: &[u8],
    imposed: Option<FileFormat>,
    table: &mut [u64],
    strings: &mut [u64],
    contigs: &mut [u64],
) {
    if !numbers::say_numbers(header, imposed, table, strings, contigs) {
        entries(header, imposed, table);
    }
}

// `noted`: with the notes on the header.
fn house(
    header: &[u8],
    imposed: Option<FileFormat>,
    table: &mut [u64],
    form: &mut [u8],
    noted: bool,
) {
    let answer = house::form::house_form(header, imposed, FORM, table, form);
    match answer.outcome {
        Ok((version, _)) => {
            say::text(1, bytes::part(form, 0, answer.length));
            if noted {
                let entries = table::kept(table, FORM, answer.entries);
                notes::say_notes(header, entries, version);
            }
        }
        Err(refusal) => {
            say::refused(refusal.number(), answer.line, answer.start);
            why::say_why_no_form(refusal, header, imposed, answer.start);
        }
    }
}

fn run(task: Task<'_>, command: &[u8], header: &[u8], memory: &mut Memory<'_>) {
    let imposed = task.imposed;
    match command {
        b"check" => check(header, imposed, memory.table),
        b"entries" => entries(header, imposed, memory.table),
        b"dictionary" => dictionary(
            header,
            imposed,
            memory.table,
            memory.strings,
            memory.contigs,
        ),
        b"odd" => odd(header, imposed, memory.table, memory.strings),
        b"house" => house(header, imposed, memory.table, memory.form, true),
        b"form" => house(header, imposed, memory.table, memory.form, false),
        b"is-house" => verdict::say_verdict(header, imposed, memory.table),
        b"text" => say::text(1, header),
        b"cells" => cells::say_plate(header, imposed, memory.table),
        b"cells-old" => cells::keep(header, imposed, memory.table, memory.had),
        b"cells-new" => cells::say_changes(header, imposed, memory.table, memory.had),
        b"season" => page::count_header(header, imposed, memory.table, memory.had),
        b"season-shown" => {
            page::count_header(header, imposed, memory.table, memory.had);
            page::say_progress(task.arguments, memory.had);
        }
        b"season-merge" => page::merge_pages(header, memory.had),
        _ => cells::say_list(header, imposed, memory.table),
    }
}

// `full`: there may be more of the input than these bytes.
fn run_command(task: Task<'_>, text: &[u8], full: bool, memory: &mut Memory<'_>) {
    let mut buffer = io::buffer();
    let end = arguments::arg(task.rt, task.command, &mut buffer);
    let command = &buffer[..end];
    if matches!(command, b"contigs") {
        contigs::say_contigs(text, full, memory.form);
        return;
    }
    let header = bytes::part(text, 0, end::header_end(text));
    // Where the ID is too long for the buffer, the argument's first bytes stand there.
    if buffer.starts_with(b"find-") {
        find(task, header, memory.table);
    } else {
        run(task, command, header, memory);
    }
}

// With room for so many words of entries, for a house form of so many bytes, and for so many words of a dictionary's pairs.
fn run_with<const ENTRIES: usize, const BYTES: usize, const PAIRS: usize>(
    task: Task<'_>,
    text: &[u8],
    full: bool,
    had: &mut [u64; 40],
)
    requires entries { ENTRIES < 2 ^ 60 }
    requires bytes { BYTES < 2 ^ 63 }
    requires pairs { PAIRS < 2 ^ 60 }
{
    let mut table: [u64; ENTRIES] = room::filled(0);
    let mut form: [u8; BYTES] = room::filled(0);
    let mut strings: [u64; PAIRS] = room::filled(0);
    let mut contigs: [u64; PAIRS] = room::filled(0);
    let mut memory = Memory {
        table: &mut table,
        form: &mut form,
        strings: &mut strings,
        contigs: &mut contigs,
        had,
    };
    run_command(task, text, full, &mut memory);
}

// A case whose header may go on after these first bytes, which are all that a long one has. There is room for a header that is two bytes
// too long, and for 1,000,000 entries.
fn large_case(task: Task<'_>, first: &[u8], had: &mut [u64; 40]) {
    let mut buffer: [u8; 16777226] = room::filled(0);
    let next = output::put_bytes(&mut buffer, 0, first);
    let Ok(end) = input::fill(task.source, &mut buffer, next) else {
        say::tell(b"r");
        return;
    };
    let text = input::text(bytes::part(&buffer, 0, end));
    let full = buffer.len() <= end;
    run_with::<3000000, 16777226, 2000000>(task, text, full, had);
}

// Whether the stack has room for a large case, as the first argument says.
fn may_be_large(rt: HostRuntime) -> bool {
    arguments::is(rt, 1, b"large")
}

// A case whose header goes on after what was read.
fn larger_case(task: Task<'_>, first: &[u8], had: &mut [u64; 40]) {
    if may_be_large(task.rt) {
        room::apart(task.arguments, &mut || large_case(task, first, had));
    } else {
        say::tell(b"m");
    }
}

// A case whose header may go on after these first bytes. There is room for headers of up to half a megabyte, after the nine bytes that
// stand before one in a BCF, and for 32,768 pairs, since a line that a dictionary has takes 16 bytes or more: all that a stack of eight
// megabytes has room for.
fn long_case(task: Task<'_>, first: &[u8], had: &mut [u64; 40]) {
    let mut buffer: [u8; 524298] = room::filled(0);
    let next = output::put_bytes(&mut buffer, 0, first);
    let Ok(end) = input::fill(task.source, &mut buffer, next) else {
        say::tell(b"r");
        return;
    };
    let text = input::text(bytes::part(&buffer, 0, end));
    let full = buffer.len() <= end;
    if full && text.len() <= end::header_end(text) {
        larger_case(task, &buffer, had);
    } else {
        run_with::<525312, 1048660, 65536>(task, text, full, had);
    }
}

// A case whose header stands whole in these bytes. Of the names of samples 256 have one byte or none, and any other entry takes three
// bytes or more; clearing a table for any header would cost more than the reading. Quotes and backslashes make a house form at most twice
// as long as the header, and a little. The lines of a dictionary have eight bytes or more.
fn short_case(task: Task<'_>, text: &[u8], full: bool, had: &mut [u64; 40]) {
    run_with::<17184, 65536, 4096>(task, text, full, had);
}

fn say_streamed(answer: FeedAnswer, imposed: Option<FileFormat>, buffer: &[u8], table: &[u64]) {
    let header = bytes::part(buffer, 0, answer.state.held);
    say_answer(header, imposed, table, stream::read_answer(answer));
}

// A header of which these are the first bytes and entries, and that is read as it comes; where the room is too small, `when_full` goes on.
fn stream_with<
    const BYTES: usize,
    const ENTRIES: usize,
    const PIECE: usize,
    F: FnOnce(FeedState, &[u8], &[u64]),
>(task: Task<'_>, state: FeedState, first: &[u8], words: &[u64], when_full: F)
    requires bytes { BYTES < 2 ^ 63 }
    requires entries { ENTRIES < 2 ^ 60 }
    requires piece { PIECE < 2 ^ 63 }
    requires callable { F.IsAlwaysCallable when_full }
{
    let mut buffer: [u8; BYTES] = room::filled(0);
    output::put_bytes(&mut buffer, 0, first);
    let mut table: [u64; ENTRIES] = room::filled(0);
    stream::copy_words(words, &mut table);
    let mut piece: [u8; PIECE] = room::filled(0);
    match stream::read_on(task.source, state, &mut piece, &mut buffer, &mut table) {
        Ok(answer) => say_streamed(answer, task.imposed, &buffer, &table),
        Err(Unanswered::Full(next)) => when_full(next, &buffer, &table),
        Err(Unanswered::Failed) => say::tell(b"r"),
    }
}

fn large_stream(task: Task<'_>, state: FeedState, first: &[u8], words: &[u64]) {
    stream_with::<16777226, 3000000, 1048660, _>(
        task,
        state,
        first,
        words,
        |_, _, _| say::tell(b"r"),
    );
}

fn long_stream(task: Task<'_>, state: FeedState, first: &[u8], words: &[u64]) {
    stream_with::<524298, 525312, 65536, _>(task, state, first, words, |next, bytes, entries| {
        if may_be_large(task.rt) {
            room::apart(
                task.arguments,
                &mut || large_stream(task, next, bytes, entries),
            );
        } else {
            say::tell(b"m");
        }
    });
}

// A header of which these bytes were taken. There is room for the two bytes that tell how an input is packed and for one piece, and for
// their entries.
fn short_stream(task: Task<'_>, begun: &[u8]) {
    let mut buffer: [u8; 16386] = room::filled(0);
    let mut table: [u64; 17190] = room::filled(0);
    let state = cable::start(task.imposed);
    let first = cable::feed(state, begun, FORM, &mut buffer, &mut table);
    let mut piece: [u8; 16384] = room::filled(0);
    match stream::read_on(
        task.source,
        first.state,
        &mut piece,
        &mut buffer,
        &mut table,
    ) {
        Ok(answer) => say_streamed(answer, task.imposed, &buffer, &table),
        Err(Unanswered::Full(next)) => room::apart(
            task.arguments,
            &mut || long_stream(task, next, &buffer, &table),
        ),
        Err(Unanswered::Failed) => say::tell(b"r"),
    }
}

// A case of which these are the first bytes.
fn read_bytes(task: Task<'_>, first: &[u8], had: &mut [u64; 40]) {
    let text = input::text(first);
    if first.len() < 16384 {
        short_case(task, text, false, had);
    } else if end::header_end(text) < text.len() {
        short_case(task, text, true, had);
    } else {
        room::apart(task.arguments, &mut || long_case(task, first, had));
    }
}

// A text is `streamed` to be answered for as soon as a line is refused. There is room for the first bytes of an input, and mostly for all
// of its header.
fn read_case(task: Task<'_>, streamed: bool, had: &mut [u64; 40]) {
    let mut first: [u8; 16384] = room::filled(0);
    let Ok(start) = input::read_start(task.source, &mut first, streamed) else {
        say::tell(b"r");
        return;
    };
    match start {
        Start::Packed => say::tell(b"z"),
        Start::Begun(begun) => short_stream(task, begun),
        Start::Bytes(bytes) => read_bytes(task, bytes, had),
    }
}

// The argument of this number, which names a version to impose.
fn imposed_of(rt: HostRuntime, number: usize) -> Option<Option<FileFormat>> {
    let mut word = io::buffer();
    let end = arguments::arg(rt, number, &mut word);
    if matches!(&word[..end], b"-") {
        return Some(None);
    }
    match file_format::parse_file_format(&word[..end]) {
        Some(version) => Some(Some(version)),
        None => None,
    }
}

// `taken`: an earlier case took standard input, and no other can read it. A file's name is UTF-8, as those of std are.
fn open(rt: HostRuntime, name: &[u8], taken: bool) -> Option<Source> {
    if matches!(name, b"-") {
        return if taken {
            None
        } else {
            Some(Source::Input(rt.stdin()))
        };
    }
    let path = str::from_utf8(name).ok()?;
    let file = File::open(&rt, path).ok()?;
    Some(Source::Named(file))
}

// The arguments of one case, by their numbers.
#[derive(Clone, Copy)]
struct Case {
    command: usize,
    version: usize,
    file: usize,
}

fn run_case(rt: HostRuntime, arguments: usize, case: Case, taken: &mut bool, had: &mut [u64; 40]) {
    let Some(imposed) = imposed_of(rt, case.version) else {
        say::tell(b"v");
        return;
    };
    let mut name = io::buffer();
    let name_end = arguments::arg(rt, case.file, &mut name);
    let Some(source) = open(rt, &name[..name_end], *taken) else {
        say::tell(b"r");
        return;
    };
    if source.is_input() {
        *taken = true;
    }
    let streamed = *taken && arguments::is(rt, case.command, b"check");
    let task = Task {
        rt,
        arguments,
        command: case.command,
        source: &source,
        imposed,
    };
    read_case(task, streamed, had);
}

// The same command on all files that are named.
fn season(rt: HostRuntime, arguments: usize, had: &mut [u64; 40]) {
    let mut taken = false;
    for file in 4..arguments {
        let case = Case {
            command: 2,
            version: 3,
            file,
        };
        run_case(rt, arguments, case, &mut taken, had);
    }
    page::say_page(had);
}

fn main(rt: HostRuntime) {
    let mut had = [0u64; 40];
    let count = arguments::count(rt);
    if page::is_asked(rt) {
        season(rt, count, &mut had);
        return;
    }
    let mut taken = false;
    for k in 0..count.saturating_sub(2) / 3 {
        let case = Case {
            command: 3 * k + 2,
            version: 3 * k + 3,
            file: 3 * k + 4,
        };
        run_case(rt, count, case, &mut taken, &mut had);
    }
}
