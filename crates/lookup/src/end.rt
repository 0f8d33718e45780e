// Where the header of a whole VCF ends.
ghost use Rattle.std.specs.Prelude.{◌≡◌};
ghost use Rattle.values.specs.Bytes.{ascii, starts};
ghost use Rattle.rules.specs.Lines.{pieces};
ghost use Rattle.lookup.specs.End.{header_end};

use lines::line;
use values::bytes;

fn is_column_line(l: &[u8]) -> bool
    ensures { result ≡ starts (ascii "#CHROM") l.now }
{
    bytes::starts_with(l, b"#CHROM")
}

// Past the first line that begins with `#CHROM`; all bytes where none does.
pub fn header_end(s: &[u8]) -> usize
    ensures { result ≡ header_end (pieces s.now) }
{
    let mut at: usize = 0;
    // Kept: no plainer: each line tells where the next one begins, so no range or iterator goes over them.
    while at < s.len() {
        let here = line::next_line(s, at);
        let l = bytes::part(s, at, here.end);
        at = here.next;
        if is_column_line(l) {
            return at;
        }
    }
    at
}
