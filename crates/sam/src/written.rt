// The contig line of an `@SQ` line, in house form.
ghost use Rattle.values.specs.Written.{Wrote};
ghost use Rattle.rules.specs.Lines.{write_line};
ghost use Rattle.sam.specs.Contigs.{contig_line};
ghost use Rattle.sam.specs.Lines.{contig_in, opened_text, optional_text, optionals_text};

use crate::{sequence, tag};
use forms::line;
use values::output;

// Up to the length.
fn put_opened(out: &mut [u8], at: usize, id: &[u8], size: u64) -> usize
    ensures { Wrote out.old at (opened_text id.now size) result out.new }
{
    let opened = output::put_bytes(out, at, b"##contig=<");
    let named = line::put_field(out, opened, b"ID", id);
    let keyed = output::put_bytes(out, named, b",length=");
    output::put_decimal(out, keyed, size)
}

// A `,` and the field, if there is a value.
fn put_optional(out: &mut [u8], at: usize, key: &[u8], value: &[u8]) -> usize
    ensures { Wrote out.old at (optional_text key.now value.now) result out.new }
{
    if value.len() == 0 {
        return at;
    }
    let next = output::put_byte(out, at, b',');
    line::put_field(out, next, key, value)
}

// The md5 and the URL.
fn put_optionals(out: &mut [u8], at: usize, sam: &[u8]) -> usize
    ensures { Wrote out.old at (optionals_text sam.now) result out.new }
{
    let md5 = tag::find_tag(sam, tag::TAGS_START, b"M5");
    let url = tag::find_tag(sam, tag::TAGS_START, b"UR");
    let next = put_optional(out, at, b"md5", md5);
    put_optional(out, next, b"URL", url)
}

// The line with its ending; `size` is the line's LN.
pub fn put_contig(out: &mut [u8], at: usize, sam: &[u8], size: u64) -> usize
    ensures { Wrote out.old at (write_line (contig_line (contig_in sam.now size))) result out.new }
{
    let opened = put_opened(out, at, sequence::name_of(sam), size);
    let filled = put_optionals(out, opened, sam);
    output::put_bytes(out, filled, b">\n")
}
