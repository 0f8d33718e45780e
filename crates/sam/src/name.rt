// Names that stand twice: each SN is held against those before it only where doubts and marks say that it may be among them.
ghost use Rattle.std.specs.Prelude.{◌≡◌};
ghost use Rattle.values.specs.Marks.{is_met, meet};
ghost use Rattle.rules.specs.Known.{is_in};
ghost use Rattle.sam.specs.Lines.{names_in, name_hash, mark_if, doubts_of, mark_again, is_repeated, ReadsNamed};

use crate::refusal::SamRefusal;
use crate::sequence;
use lines::line;
use values::{bytes, hash, marks};

// Whether the name is the SN of an `@SQ` line in `earlier`.
fn is_among(earlier: &[u8], name: &[u8]) -> bool
    ensures { result ≡ is_in name.now (names_in earlier.now) }
{
    let mut at: usize = 0;
    // Kept: no plainer: each line tells where the next one begins.
    while at < earlier.len() {
        let start = at;
        let found = line::next_line(earlier, start);
        let text = bytes::part(earlier, start, found.end);
        at = found.next;
        if sequence::is_sequence(text) && bytes::same(sequence::name_of(text), name) {
            return true;
        }
    }
    false
}

fn name_hash(name: &[u8]) -> u64
    ensures { result ≡ name_hash name.now }
{
    hash::wide_from(hash::WIDE_BASIS, name, false)
}

// The same, where the name is in doubt and the marks of such names don't tell it already; it is marked, by another hash than the doubts,
// since names whose marks are the same there would have the same here.
fn is_repeated(earlier: &[u8], doubts: &[u64], marks: &mut [u64], name: &[u8]) -> bool
    ensures repeated { result ≡ is_repeated earlier.now doubts.now marks.old name.now }
    ensures marks { marks.new ≡ mark_again doubts.now marks.old name.now }
{
    let hash = name_hash(name);
    marks::is_met(doubts, hash)
        && marks::meet_hash(marks, hash::wide_step(hash, 1))
        && is_among(earlier, name)
}

// An `@SQ` line beside the lines before it, whose names in doubt are marked.
pub fn read_named(
    earlier: &[u8],
    doubts: &[u64],
    marks: &mut [u64],
    line: &[u8],
) -> Result<u64, SamRefusal>
    ensures { ReadsNamed earlier.now doubts.now marks.old line.now result marks.new }
{
    match sequence::read_sequence(line) {
        Err(x) => Err(x),
        Ok(size) => {
            if is_repeated(earlier, doubts, marks, sequence::name_of(line)) {
                return Err(SamRefusal::DuplicateSequence);
            }
            Ok(size)
        }
    }
}

// A name that may have been met is put in doubt, and each is marked.
fn doubt_name(name: &[u8], marks: &mut [u64], doubts: &mut [u64])
    ensures marks { marks.new ≡ meet marks.old (name_hash name.now) }
    ensures doubts { doubts.new ≡ mark_if (is_met marks.old (name_hash name.now)) doubts.old (name_hash name.now) }
{
    let hash = name_hash(name);
    if marks::meet_hash(marks, hash) {
        marks::meet_hash(doubts, hash);
    }
}

// Each name that stands twice is put in doubt, and few others.
pub fn doubt_names(sam: &[u8], marks: &mut [u64], doubts: &mut [u64])
    ensures { doubts.new ≡ doubts_of marks.old doubts.old (names_in sam.now) }
{
    let mut at: usize = 0;
    // Kept: no plainer: each line tells where the next one begins.
    while at < sam.len() {
        let start = at;
        let found = line::next_line(sam, start);
        let text = bytes::part(sam, start, found.end);
        at = found.next;
        if sequence::is_sequence(text) {
            doubt_name(sequence::name_of(text), marks, doubts);
        }
    }
}
