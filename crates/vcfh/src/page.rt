// The sheet of a season, and its pages. What is `kept` from file to file is the sheet, in the first 39 words.
use crate::form::FORM;
use crate::{arguments, say};
use header::parser::Outcome;
use records::file_format::FileFormat;
use season::merge::SeasonRefusal;
use season::{add, merge, place};
use values::integer;

// The kinds of entries as the verb `entries` names them, from that of the number 1 on.
const KINDS: [&str; 10] = [
    "fileformat",
    "INFO",
    "FILTER",
    "FORMAT",
    "ALT",
    "contig",
    "map",
    "text",
    "columns",
    "sample",
];

fn sheet_in(kept: &[u64; 40]) -> [u64; 39] {
    let mut sheet = [0u64; 39];
    sheet.copy_from_slice(&kept[..39]);
    sheet
}

fn keep(sheet: &[u64; 39], kept: &mut [u64; 40]) {
    kept[..39].copy_from_slice(sheet);
}

fn say_too_large() {
    say::tell(b"n");
    say::refused(30, 0, 0);
    say::text(2, b"a total would be larger than 18446744073709551615\n");
}

// What is told of a header that is counted: `.` if it is accepted, `,` if it is refused.
fn tell_counted(own: Outcome) {
    match own {
        Ok((_, _)) => say::tell(b"."),
        Err(_) => say::tell(b","),
    }
}

pub fn count_header(
    header: &[u8],
    imposed: Option<FileFormat>,
    table: &mut [u64],
    kept: &mut [u64; 40],
) {
    let answer = add::add(header, imposed, FORM, table, sheet_in(kept));
    let outcome = answer.outcome;
    let sheet = answer.sheet;
    match outcome {
        Ok(own) => {
            keep(&sheet, kept);
            tell_counted(own);
        }
        Err(SeasonRefusal::TotalTooLarge) => say_too_large(),
    }
}

// How many of the files that are the last arguments were read, for a terminal.
pub fn say_progress(count: usize, kept: &[u64; 40]) {
    let read = kept[place::READ];
    if count < 4 {
        return;
    }
    say::numbered(2, b"\r", read);
    say::numbered(2, b" of ", (count - 4) as u64);
    say::text(2, b" files");
}

fn say_total(n: u64) {
    say::numbered(1, b"\t", n);
    say::text(1, b"\n");
}

// A line for each number that came.
fn say_refused(kept: &[u64; 40]) {
    for n in 1..28 {
        let total = kept[place::REFUSED + n];
        if total != 0 {
            say::numbered(1, b"refused ", n as u64);
            say_total(total);
        }
    }
}

fn say_entries(kept: &[u64; 40]) {
    for (kind, total) in KINDS.iter().zip(&kept[place::ENTRIES + 1..]) {
        say::text(1, b"entries ");
        say::text(1, kind.as_bytes());
        say_total(*total);
    }
}

pub fn say_page(kept: &[u64; 40]) {
    let read = kept[place::READ];
    let accepted = kept[place::ACCEPTED];
    say::text(1, b"read");
    say_total(read);
    say::text(1, b"accepted");
    say_total(accepted);
    say_refused(kept);
    say_entries(kept);
}

fn place_of_number(number: &[u8]) -> Option<usize> {
    match integer::parse_u64(number) {
        Some((n, true)) if 1 <= n && n <= 27 => Some(place::REFUSED + n as usize),
        _ => None,
    }
}

fn place_of_kind(name: &[u8]) -> Option<usize> {
    let mut kinds = KINDS.iter().zip(place::ENTRIES + 1..39);
    let (_, place) = kinds.find(|(kind, _)| kind.as_bytes() == name)?;
    Some(place)
}

fn place_of(label: &[u8]) -> Option<usize> {
    if let Some(number) = label.strip_prefix(b"refused ") {
        return place_of_number(number);
    }
    if let Some(kind) = label.strip_prefix(b"entries ") {
        return place_of_kind(kind);
    }
    match label {
        b"read" => Some(place::READ),
        b"accepted" => Some(place::ACCEPTED),
        _ => None,
    }
}

// What a line of a page says: a total and its place.
fn line_of(l: &[u8]) -> Option<(usize, u64)> {
    let mut parts = l.splitn(2, |b| *b == b'\t');
    let place = place_of(parts.next()?)?;
    match integer::parse_u64(parts.next()?) {
        Some((n, true)) => Some((place, n)),
        _ => None,
    }
}

// Whether a line may stand after another: a page has every line but those of numbers by which nothing is refused.
fn follows(last: usize, place: usize) -> bool {
    match last {
        place::READ => place == place::ACCEPTED,
        38.. => place == place::READ,
        place::ACCEPTED..=28 => last < place && place <= 29,
        _ => place == last + 1,
    }
}

// Why pages are not merged.
#[derive(Clone, Copy)]
enum Unmerged {
    NoPage,
    TooLarge,
}

fn merge_page(page: [u64; 39], kept: &mut [u64; 40]) -> Result<(), Unmerged> {
    let answer = merge::merge(sheet_in(kept), page);
    match answer.outcome {
        Ok(()) => {
            keep(&answer.sheet, kept);
            Ok(())
        }
        Err(SeasonRefusal::TotalTooLarge) => Err(Unmerged::TooLarge),
    }
}

// Pages one after another, each of which is merged at its last line.
fn merge_text(text: &[u8], kept: &mut [u64; 40]) -> Result<(), Unmerged> {
    let mut page = [0u64; 39];
    let mut last = 38;
    for line in text.split_inclusive(|b| *b == b'\n') {
        let l = line.strip_suffix(b"\n").ok_or(Unmerged::NoPage)?;
        let (place, n) = line_of(l).ok_or(Unmerged::NoPage)?;
        if !follows(last, place) {
            return Err(Unmerged::NoPage);
        }
        last = place;
        *page.get_mut(place).ok_or(Unmerged::NoPage)? = n;
        if place == 38 {
            merge_page(page, kept)?;
            page = [0u64; 39];
        }
    }
    if last == 38 {
        Ok(())
    } else {
        Err(Unmerged::NoPage)
    }
}

// `.` is told of pages that are merged, `b` of what are none.
pub fn merge_pages(text: &[u8], kept: &mut [u64; 40]) {
    if text.is_empty() {
        say::tell(b"b");
        return;
    }
    match merge_text(text, kept) {
        Ok(()) => say::tell(b"."),
        Err(Unmerged::NoPage) => say::tell(b"b"),
        Err(Unmerged::TooLarge) => say_too_large(),
    }
}

// Whether the command is one of a season's, which goes over all files that are named after it.
pub fn is_asked(rt: HostRuntime) -> bool {
    let mut word = io::buffer();
    let end = arguments::arg(rt, 2, &mut word);
    word[..end].starts_with(b"season")
}
