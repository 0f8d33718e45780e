// Writing for people.
use std::io::ErrorKind;
use std_io::io::last_error;
use values::bytes;

// A word for bin/vcfh, which has no other way to learn what came of a case. `n`: refused; `d`: two headers differ; `r`: the input was
// not read; `v`: no version to impose; `z`: the input is packed; `w`: a write failed; `p`: nobody reads the output any more; `e`: nothing was found;
// `i`: an index has no room.
pub fn tell(word: &[u8]) {
    io::write_all(3, word);
}

fn tell_failed_write() {
    let error = last_error();
    if error.kind() == ErrorKind::BrokenPipe {
        tell(b"p");
    } else {
        tell(b"w");
    }
}

pub fn text(fd: i32, s: &[u8]) {
    if !io::write_all(fd, s) {
        tell_failed_write();
    }
}

pub fn decimal(fd: i32, n: u64) {
    let mut digits = [0u8; 20];
    let k = io::decimal(n, &mut digits);
    text(fd, &digits[..k]);
}

pub fn numbered(fd: i32, label: &[u8], n: u64) {
    text(fd, label);
    decimal(fd, n);
}

// The line of a refusal, on standard error.
pub fn refused(number: u64, line: usize, start: usize) {
    let mut out = io::buffer();
    let end = report::put_refused(&mut out, 0, number, line, start);
    text(2, bytes::part(&out, 0, end));
}

// Bytes of a header: a control character is shown as `?`, since it might move a terminal's cursor.
pub fn shown(fd: i32, s: &[u8]) {
    for (n, run) in s.split(|b| b.is_ascii_control()).enumerate() {
        if n != 0 {
            text(fd, b"?");
        }
        text(fd, run);
    }
}

// Spaces after a text of `used` bytes, so that the next one stands in line.
fn fill(used: usize, width: usize) {
    let spaces = b"                    ";
    text(1, bytes::part(spaces, used, width));
    text(1, b" ");
}

pub fn cell(s: &[u8], width: usize) {
    shown(1, s);
    fill(s.len(), width);
}

pub fn number_cell(n: u64, width: usize) {
    let mut digits = [0u8; 20];
    let k = io::decimal(n, &mut digits);
    cell(&digits[..k], width);
}
