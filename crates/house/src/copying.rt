// Texts that are put as they stand, many bytes at once.
ghost use Rattle.std.specs.Prelude.{◌≡◌, ◌+◌, ◌≤◌, length};
ghost use Rattle.std.proofs.lemmas.List.Edits.{sets};
ghost use Rattle.values.specs.Written.{Puts};

use values::sink;
use values::sink::Sink;

// Kept: `copy_from_slice` would ask whoever links the archive for `memmove` too. No early end, so that a compiler can take many bytes at once.
fn copy(out: &mut [u8], at: usize, text: &[u8])
    requires { at + length text.now ≤ length out.old }
    ensures { out.new ≡ sets out.old at text.now }
{
    for i in 0..text.len() {
        out[at + i] = text[i];
    }
}

// Where nothing is written: mostly the text is what is given.
fn compare_text(out: &mut [u8], given: &[u8], s: Sink, text: &[u8]) -> Sink
    ensures { Puts given.now out.old s text.now result out.new }
{
    let at = s.at;
    if out.len() <= at && at < given.len() && text.len() <= given.len() - at {
        let end = at + text.len();
        if &given[at..end] == text {
            return Sink {
                at: end,
                differs: s.differs,
            };
        }
    }
    sink::put_bytes(out, given, s, text)
}

// Past a difference the text is only written, and mostly fits.
pub fn put_text(out: &mut [u8], given: &[u8], s: Sink, text: &[u8]) -> Sink
    ensures { Puts given.now out.old s text.now result out.new }
{
    let at = s.at;
    let differs = s.differs;
    if at < differs {
        return compare_text(out, given, s, text);
    }
    if at < out.len() && text.len() <= out.len() - at {
        copy(out, at, text);
        return Sink {
            at: at + text.len(),
            differs,
        };
    }
    sink::put_bytes(out, given, s, text)
}
