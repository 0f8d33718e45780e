// Contig lines from the header of an alignment file: checked and measured first, then written if all lines may stand and fit.
ghost use Rattle.std.specs.Prelude.{◌≡◌, ◌≤◌};
ghost use Rattle.sam.specs.Lines.{Doubted};
ghost use Rattle.sam.specs.Answers.{contigs_number, refused_answer, Walks, ContigsCall};

use crate::refusal::SamRefusal;
use crate::{name, sequence, written};
use lines::line;
use values::bytes;

pub type ContigsOutcome = Result<(), SamRefusal>;

// The number of documents 01 and 02, 0 if accepted.
pub fn number(outcome: ContigsOutcome) -> u64
    ensures { result ≡ contigs_number outcome }
{
    match outcome {
        Ok(()) => 0,
        Err(x) => x.number(),
    }
}

// The outcome; the line and its start, or how many lines and bytes there are; how many contigs were written, and in how many bytes.
#[derive(Clone, Copy)]
pub struct ContigsAnswer {
    pub outcome: ContigsOutcome,
    pub line: usize,
    pub start: usize,
    pub contigs: usize,
    pub length: usize,
}

// What came of a walk over the lines: how many lines and contigs there are and the place after what was written; or why not, with the
// line and its start.
type Walked = Result<(usize, usize, usize), (SamRefusal, usize, usize)>;

// All lines, whatever stands in `marks` before. What does not fit into the output is counted and not written.
fn walk(sam: &[u8], doubts: &[u64], marks: &mut [u64], out: &mut [u8]) -> Walked
    requires { Doubted sam.now doubts.now }
    ensures { Walks sam.now out.old result out.new }
{
    let mut at: usize = 0;
    let mut lines: usize = 0;
    let mut contigs: usize = 0;
    let mut next: usize = 0;
    // Kept: no plainer: each line tells where the next one begins.
    while at < sam.len() {
        let start = at;
        let found = line::next_line(sam, start);
        let text = bytes::part(sam, start, found.end);
        at = found.next;
        lines += 1;
        if sequence::is_sequence(text) {
            match name::read_named(bytes::part(sam, 0, start), doubts, marks, text) {
                Err(x) => return Err((x, lines, start)),
                Ok(size) => {
                    contigs += 1;
                    next = written::put_contig(out, next, text, size);
                }
            }
        }
    }
    Ok((lines, contigs, next))
}

fn walk_with<const MARKS: usize>(sam: &[u8], doubts: &[u64], out: &mut [u8]) -> Walked
    requires doubted { Doubted sam.now doubts.now }
    requires small { MARKS ≤ 16384 }
    ensures { Walks sam.now out.old result out.new }
{
    let mut marks = [0u64; MARKS];
    walk(sam, doubts, &mut marks, out)
}

// A short header has few names, and clearing more marks than they need costs more than it spares.
fn walk_marked(sam: &[u8], doubts: &[u64], out: &mut [u8]) -> Walked
    requires { Doubted sam.now doubts.now }
    ensures { Walks sam.now out.old result out.new }
{
    match sam.len() {
        0..8192 => walk_with::<512>(sam, doubts, out),
        8192..0x2_0000 => walk_with::<8192>(sam, doubts, out),
        _ => walk_with::<16384>(sam, doubts, out),
    }
}

fn refuse(x: SamRefusal, line: usize, start: usize) -> ContigsAnswer
    ensures { result ≡ refused_answer x line start }
{
    ContigsAnswer {
        outcome: Err(x),
        line,
        start,
        contigs: 0,
        length: 0,
    }
}

// Measured first, then written, with the same doubts.
fn write_doubted(sam: &[u8], doubts: &[u64], out: &mut [u8]) -> ContigsAnswer
    requires { Doubted sam.now doubts.now }
    ensures { ContigsCall sam.now out.old result out.new }
{
    match walk_marked(sam, doubts, &mut []) {
        Err((x, line, start)) => refuse(x, line, start),
        Ok((lines, contigs, size)) => {
            if out.len() < size {
                return refuse(SamRefusal::OutputTooSmall, 0, 0);
            }
            let _ = walk_marked(sam, doubts, out);
            ContigsAnswer {
                outcome: Ok(()),
                line: lines,
                start: sam.len(),
                contigs,
                length: size,
            }
        }
    }
}

// With marks enough for the names of 16 MB, which are off the stack again before the lines are written.
#[inline(never)]
fn find_doubts(sam: &[u8], doubts: &mut [u64])
    ensures { Doubted sam.now doubts.new }
{
    let mut marks = [0u64; 90112];
    name::doubt_names(sam, &mut marks, doubts);
}

// The names that may stand twice are found first, so that few are looked for in vain, each by a walk over the lines before it. It is not
// made a part of its caller: else the stack would hold all marks for a short header.
#[inline(never)]
fn write_long(sam: &[u8], out: &mut [u8]) -> ContigsAnswer
    ensures { ContigsCall sam.now out.old result out.new }
{
    let mut doubts = [0u64; 8192];
    find_doubts(sam, &mut doubts);
    write_doubted(sam, &doubts, out)
}

// Writes a contig line for each `@SQ` line of a SAM header, from the output's first byte on; nothing is written if it is refused. Where
// there are no doubts, each name is in doubt.
pub fn contigs(sam: &[u8], out: &mut [u8]) -> ContigsAnswer
    ensures { ContigsCall sam.now out.old result out.new }
{
    if sam.len() < 0x4_0000 {
        return write_doubted(sam, &[], out);
    }
    write_long(sam, out)
}
