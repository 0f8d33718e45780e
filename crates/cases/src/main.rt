// Replays recorded cases. Each argument names a file of them, a line a case: its name, what is asked, the input and what must
// come, parted by tabs and escaped. A case that comes out otherwise is named, with what came; each file's cases are counted.
#![tactic(auto)]

mod calls;
mod contigs;
mod dictionaries;
mod feeds;
mod house_forms;
mod indexes;
mod library;
mod lookups;
mod odd;
mod reads;
mod registers;
mod seasons;
mod text;
mod turns;
mod value;
mod verdicts;
mod words;

ghost use Rattle.std.specs.Prelude.{◌≡◌, length};

use entries::form::Form;
use std::env::FillError;
use std::fs::File;
use std::os::fd::AsRawFd;
use std::rt::Env;
use text::nth;
use values::bytes;

// Room for a header that is too long for the first form. As with `io::buffer`, the contract gives only the length.
fn longest_buffer() -> [u8; 1200000]
    ensures { 1200000 ≡ length result }
{
    [0; 1200000]
}

fn say(text: &[u8]) {
    io::write_all(1, text);
}

fn say_number(n: u64) {
    io::print_decimal(1, n);
}

// Of what else may be asked.
fn answer_other(asked: &[u8], input: &[u8], form: &mut [u8], out: &mut [u8]) -> usize {
    let what = words::word(asked, 0);
    if words::is_asked(asked, b"to-first") {
        return turns::put(out, input, asked, Form::Second);
    }
    if words::is_asked(asked, b"to-second") {
        return turns::put(out, input, asked, Form::First);
    }
    if words::is_asked(asked, b"contigs") {
        return contigs::put(out, input, asked, form);
    }
    if words::is_asked(asked, b"season") {
        return seasons::put(out, input, asked);
    }
    if words::is_asked(asked, b"merge") {
        return seasons::put_merge(out, asked);
    }
    if words::is_asked(asked, b"is-house") {
        return verdicts::put(out, input, asked);
    }
    if words::is_asked(asked, b"c-is-house") {
        return verdicts::put_in_c(out, input, asked);
    }
    if what.starts_with(b"c-") {
        return library::put(out, input, asked, form);
    }
    value::put(out, input, what)
}

// What comes of the input: the first word says whom it is asked of.
fn answer(asked: &[u8], input: &[u8], form: &mut [u8], out: &mut [u8]) -> usize {
    if words::is_asked(asked, b"read") {
        return reads::put(out, input, asked);
    }
    if words::is_asked(asked, b"form") {
        return house_forms::put(out, input, asked, form);
    }
    if words::is_asked(asked, b"show") {
        return calls::put(out, input, asked);
    }
    if words::is_asked(asked, b"dictionaries") {
        return dictionaries::put(out, input, asked);
    }
    if words::is_asked(asked, b"register") {
        return registers::put(out, input, asked);
    }
    if words::is_asked(asked, b"odd") {
        return odd::put(out, input, asked);
    }
    if indexes::is_asked(asked) {
        return indexes::put(out, input, asked);
    }
    if words::is_asked(asked, b"cut") || words::is_asked(asked, b"feed") {
        return feeds::put(out, input, asked, form);
    }
    answer_other(asked, input, form, out)
}

fn say_wrong(name: &[u8], came: &[u8]) {
    say(b"wrong: ");
    say(name);
    say(b"\n");
    say(came);
    say(b"\n");
}

// Whether what came is what must come.
fn holds(name: &[u8], came: &[u8], expected: &[u8]) -> bool {
    let mut plain = io::large_buffer();
    let end = text::unescape(expected, &mut plain);
    let holds = came == bytes::part(&plain, 0, end);
    if !holds {
        say_wrong(name, came);
    }
    holds
}

// One case, with buffers for its input and for a form.
fn case(line: &[u8], input: &mut [u8], form: &mut [u8]) -> bool {
    let n = text::unescape(nth(line, b'\t', 2), input);
    let mut out = io::large_buffer();
    let end = answer(
        nth(line, b'\t', 1),
        bytes::part(input, 0, n),
        form,
        &mut out,
    );
    holds(
        nth(line, b'\t', 0),
        bytes::part(&out, 0, end),
        nth(line, b'\t', 3),
    )
}

fn say_counts(name: &[u8], cases: u64, wrong: u64) {
    say(name);
    say(b": ");
    say_number(cases);
    say(b" cases, ");
    say_number(wrong);
    say(b" wrong\n");
}

// Each line of the file is a case.
fn replay(name: &[u8], file: &[u8], input: &mut [u8], form: &mut [u8]) {
    let mut cases = 0;
    let mut wrong = 0;
    for piece in file.split_inclusive(|b| *b == b'\n') {
        let Some(line) = piece.strip_suffix(b"\n") else {
            break;
        };
        cases += 1;
        if !case(line, input, form) {
            wrong += 1;
        }
    }
    say_counts(name, cases, wrong);
}

// A file's name is UTF-8, as those of std are.
fn open(rt: HostRuntime, name: &[u8]) -> Option<File> {
    let Ok(path) = str::from_utf8(name) else {
        return None;
    };
    let Ok(file) = File::open(&rt, path) else {
        return None;
    };
    Some(file)
}

// Answers whether there is an argument of this number.
fn replay_file(
    rt: HostRuntime,
    number: usize,
    file: &mut [u8],
    input: &mut [u8],
    form: &mut [u8],
) -> bool {
    let mut name = io::buffer();
    let end = match rt.arg(number, &mut name) {
        Ok(n) => n,
        Err(FillError::TooLong) => 0,
        Err(FillError::NotPresent) => return false,
    };
    let Some(opened) = open(rt, &name[..end]) else {
        say(&name[..end]);
        say(b" is missing\n");
        return true;
    };
    let n = io::read_full(opened.as_raw_fd(), file);
    replay(&name[..end], bytes::part(file, 0, n), input, form);
    true
}

fn main(rt: HostRuntime) {
    let mut file = longest_buffer();
    let mut input = longest_buffer();
    let mut form = longest_buffer();
    for number in 1..0x1_0000_0000 {
        if !replay_file(rt, number, &mut file, &mut input, &mut form) {
            return;
        }
    }
}
