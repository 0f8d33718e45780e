// What a text means, in a lent output.
ghost use Rattle.std.specs.Prelude.{◌≡◌, length};
ghost use Rattle.std.proofs.lemmas.List.Edits.{sets};
ghost use Rattle.values.specs.Value.{meaning};
ghost use Rattle.values.specs.Written.{onward, Wrote};
ghost use Rattle.lookup.specs.Meanings.{fitting, written_as};

use values::sink::Sink;
use values::string;

// As far as there is room; answers how many bytes there are.
fn put(s: &[u8], quoted: bool, out: &mut [u8]) -> usize
    ensures { Wrote out.old 0 (meaning quoted s.now) result out.new }
{
    let next = string::put_value(out, b"", Sink { at: 0, differs: 0 }, s, quoted, false);
    next.at
}

fn count(s: &[u8], quoted: bool) -> usize
    ensures { result ≡ onward 0 (length (meaning quoted s.now)) }
{
    let mut nothing = [0u8; 0];
    put(s, quoted, &mut nothing)
}

// The meaning of a text that stands between quotes or bare. Nothing is written where it does not fit.
// How many bytes were written; none where the output is too small for them.
pub fn put_meaning(s: &[u8], quoted: bool, out: &mut [u8]) -> Option<usize>
    ensures answer { result ≡ written_as (length out.old) (meaning quoted s.now) }
    ensures output { out.new ≡ sets out.old 0 (fitting (length out.old) (meaning quoted s.now)) }
{
    let size = count(s, quoted);
    if out.len() < size {
        return None;
    }
    put(s, quoted, out);
    Some(size)
}
