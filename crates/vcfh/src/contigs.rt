// The contig lines of a SAM header.
use crate::say;
use lines::line;
use sam::contigs;
use sam::refusal::SamRefusal;
use values::bytes;

// The value of a line's SN, no bytes if there is none.
fn name_in(l: &[u8]) -> &[u8] {
    l.split(|b| *b == b'\t')
        .find_map(|tag| tag.strip_prefix(b"SN:"))
        .unwrap_or(b"")
}

fn say_twice(l: &[u8]) {
    say::text(2, b"the SN ");
    say::shown(2, name_in(l));
    say::text(2, b" appears twice among the @SQ lines\n");
}

// In a sentence; l is the line that was refused.
fn say_why(refusal: SamRefusal, l: &[u8]) {
    match refusal {
        SamRefusal::LineTooLong => say::text(2, b"the line is longer than 65,535 bytes\n"),
        SamRefusal::InvalidUtf8 => say::text(2, b"the line is not UTF-8\n"),
        SamRefusal::InvalidTag => say::text(
            2,
            b"a tag is not a letter, a letter or digit, a colon and a value, or it appears twice\n",
        ),
        SamRefusal::InvalidSequence => say::text(
            2,
            b"the @SQ line has no SN, or no LN from 1 to 2147483647\n",
        ),
        SamRefusal::DuplicateSequence => say_twice(l),
        SamRefusal::OutputTooSmall => say::text(
            2,
            b"the contig lines are longer than 16,777,226 bytes\n",
        ),
    }
}

fn say_lines(sam: &[u8], out: &mut [u8]) {
    let answer = contigs::contigs(sam, out);
    let outcome = answer.outcome;
    match outcome {
        Ok(()) => say::text(1, bytes::part(out, 0, answer.length)),
        Err(refusal) => {
            say::tell(b"n");
            say::refused(refusal.number(), answer.line, answer.start);
            let found = line::next_line(sam, answer.start);
            say_why(refusal, bytes::part(sam, answer.start, found.end));
        }
    }
}

// Where the first line that does not begin with `@` stands: the header of a whole SAM ends there.
fn header_end(s: &[u8]) -> usize {
    if !s.starts_with(b"@") {
        return 0;
    }
    let mut ends = s.windows(2);
    match ends.position(|pair| matches!(pair, [b'\n', b] if *b != b'@')) {
        Some(n) => n + 1,
        None => s.len(),
    }
}

// `full`: there may be more than was read, and the header is asked for alone.
pub fn say_contigs(sam: &[u8], full: bool, out: &mut [u8]) {
    if !full {
        say_lines(sam, out);
        return;
    }
    let end = header_end(sam);
    if sam.len() <= end {
        say::tell(b"n");
        say::refused(27, 0, 0);
        say::text(2, b"the header is longer than 16,777,225 bytes\n");
        return;
    }
    say_lines(bytes::part(sam, 0, end), out);
}
