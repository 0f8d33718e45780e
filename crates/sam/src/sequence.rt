// An `@SQ` line: one sequence, which a contig line is written of.
ghost use Rattle.std.specs.Prelude.{◌≡◌};
ghost use Rattle.rules.specs.Map.{is_some};
ghost use Rattle.values.specs.Bytes.{ascii};
ghost use Rattle.sam.specs.Tags.{tags_of};
ghost use Rattle.sam.specs.Contigs.{read_sequence};
ghost use Rattle.sam.specs.Lines.{tags_at, value_in, size_in, sequence_means};

use crate::refusal::SamRefusal;
use crate::tag;
use entries::limits::Limits;
use values::{bytes, integer, utf8};

// The largest LN of the SAM specification.
const LARGEST: u64 = 2147483647;

// Whether the line's first tab-parted field is `@SQ`.
pub fn is_sequence(line: &[u8]) -> bool
    ensures { result ≡ is_some (tags_of line.now) }
{
    if line.len() < tag::TAGS_START {
        return bytes::same(line, b"@SQ");
    }
    bytes::starts_with(line, b"@SQ\t")
}

// The SN of an `@SQ` line, no bytes if it has none.
pub fn name_of(line: &[u8]) -> &[u8]
    ensures { result.now ≡ value_in (ascii "SN") line.now }
{
    tag::find_tag(line, tag::TAGS_START, b"SN")
}

// The LN of an `@SQ` line whose tags are good.
fn read_size(line: &[u8]) -> Option<(u64, bool)>
    ensures { result ≡ size_in line.now }
{
    integer::integer(tag::find_tag(line, tag::TAGS_START, b"LN"), false, LARGEST)
}

// An `@SQ` line, apart from those before it.
// The contig's length.
pub fn read_sequence(line: &[u8]) -> Result<u64, SamRefusal>
    ensures { sequence_means line.now result ≡ read_sequence line.now (tags_at line.now 4) }
{
    if Limits::FIRST.line < line.len() {
        return Err(SamRefusal::LineTooLong);
    }
    if !utf8::utf8(line) {
        return Err(SamRefusal::InvalidUtf8);
    }
    if !tag::are_tags(line) {
        return Err(SamRefusal::InvalidTag);
    }
    if name_of(line).len() == 0 {
        return Err(SamRefusal::InvalidSequence);
    }
    let Some((size, _)) = read_size(line) else {
        return Err(SamRefusal::InvalidSequence);
    };
    if size == 0 {
        return Err(SamRefusal::InvalidSequence);
    }
    Ok(size)
}
