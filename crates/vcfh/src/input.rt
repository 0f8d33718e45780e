// What stands in an input: packed bytes, a VCF, or the text of a BCF.
ghost use Rattle.std.specs.Prelude.{◌≤◌, length, IfOk};

use std::fs::File;
use std::io::{Read, Result, Stdin};
use std::os::fd::AsRawFd;
use values::{bytes, output};

// Where the bytes of an input come from.
#[derive(Drop)]
pub enum Source {
    Input(Stdin),
    Named(File),
}

impl Source {
    // Whether this is what stands at descriptor 0.
    pub fn is_input(&self) -> bool {
        match self {
            Source::Input(_) => true,
            Source::Named(file) => file.as_raw_fd() == 0,
        }
    }

    // What is there now, no more than there is room for.
    pub fn read_some(&self, buffer: &mut [u8]) -> Result<usize>
        ensures { IfOk result (λ n. n ≤ length buffer.new) }
    {
        match self {
            Source::Input(stdin) => {
                let mut from = stdin;
                from.read(buffer)
            }
            Source::Named(file) => {
                let mut from = file;
                from.read(buffer)
            }
        }
    }

    // Reads until the buffer is full or the input ends.
    fn read_full(&self, buffer: &mut [u8]) -> Result<usize>
        ensures { IfOk result (λ n. n ≤ length buffer.new) }
    {
        let mut done = 0;
        // Kept: no plainer: each turn goes on by as much as was read.
        while done < buffer.len() {
            let n = self.read_some(&mut buffer[done..])?;
            if n == 0 {
                break;
            }
            done += n;
        }
        Ok(done)
    }
}

// The first bytes of what gzip packed.
fn is_packed(s: &[u8]) -> bool {
    s.starts_with(b"\x1F\x8B")
}

// The first bytes, if they are not of what gzip packed. Begun: only these were taken of a text that is read as it comes.
#[derive(Clone, Copy)]
pub enum Start<'a> {
    Packed,
    Begun(&'a [u8]),
    Bytes(&'a [u8]),
}

// Reads on from a place; answers where the input or the buffer ends.
pub fn fill(source: &Source, buffer: &mut [u8], from: usize) -> Result<usize> {
    if buffer.len() <= from {
        return Ok(from);
    }
    let n = source.read_full(&mut buffer[from..])?;
    Ok(from + n)
}

// Fills the buffer, but takes only the first two bytes of a packed input, so that bin/vcfh can hand all of it to gzip, and of a text
// that is `streamed`.
pub fn read_start<'a>(source: &Source, buffer: &'a mut [u8], streamed: bool) -> Result<Start<'a>> {
    let mut two = [0u8; 2];
    let k = source.read_full(&mut two)?;
    if is_packed(&two) {
        return Ok(Start::Packed);
    }
    let next = output::put_bytes(buffer, 0, bytes::part(&two, 0, k));
    if k < 2 {
        return Ok(Start::Bytes(bytes::part(buffer, 0, k)));
    }
    if streamed && two[0] != b'B' {
        return Ok(Start::Begun(bytes::part(buffer, 0, k)));
    }
    let end = fill(source, buffer, next)?;
    Ok(Start::Bytes(bytes::part(buffer, 0, end)))
}

// The bytes that a BCF's text takes: their number stands after its first five bytes, from its lowest byte on.
fn text_length(s: &[u8]) -> usize {
    match s {
        [_, _, _, _, _, a, b, c, d, ..] => u32::from_le_bytes([*a, *b, *c, *d]) as usize,
        _ => 0,
    }
}

// The text of a BCF, which ends before the first zero; of anything else all of it.
pub fn text(s: &[u8]) -> &[u8] {
    if !s.starts_with(b"BCF\x02") {
        return s;
    }
    let text = bytes::piece(s, 9, text_length(s));
    bytes::part(text, 0, bytes::find(text, 0, 0))
}
