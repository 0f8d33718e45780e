// One writer for two uses: bytes are written into a lent output, and are held against bytes that are given. What does not fit into the
// output is counted and not written, so that no call asks for room; either of the two may be empty.
ghost use Rattle.std.specs.Prelude.{◌≡◌, [], ◌∷◌};
ghost use Rattle.values.specs.Integer.{decimal};
ghost use Rattle.values.specs.Written.{onward, differing, sooner, Puts};

// The place after what was put, and the first place where it is not what is given: the largest number if none was met.
#[derive(Clone, Copy)]
pub struct Sink {
    pub at: usize,
    pub differs: usize,
}

impl Sink {
    // The first difference, after one byte more.
    fn compare(self, given: &[u8], b: u8) -> usize
        ensures { result ≡ sooner self.differs (differing given.now self.at (b ∷ [])) }
    {
        let at = self.at;
        let differs = self.differs;
        if differs <= at {
            return differs;
        }
        if at < given.len() && given[at] == b {
            return differs;
        }
        at
    }
}

pub fn put_byte(out: &mut [u8], given: &[u8], s: Sink, b: u8) -> Sink
    ensures { Puts given.now out.old s (b ∷ []) result out.new }
{
    let at = s.at;
    let differs = s.compare(given, b);
    if at < out.len() {
        out[at] = b;
        return Sink {
            at: at + 1,
            differs,
        };
    }
    if at < 0xFFFF_FFFF_FFFF_FFFF {
        return Sink {
            at: at + 1,
            differs,
        };
    }
    Sink { at, differs }
}

// The place n bytes on, as far as a number goes.
fn count_on(at: usize, n: usize) -> usize
    ensures { result ≡ onward at n }
{
    at.saturating_add(n)
}

fn put_each(out: &mut [u8], given: &[u8], s: Sink, text: &[u8]) -> Sink
    ensures { Puts given.now out.old s text.now result out.new }
{
    let mut next = s;
    for b in text {
        next = put_byte(out, given, next, *b);
    }
    next
}

// Past the output's end, and past a difference, the bytes are counted and not looked at.
pub fn put_bytes(out: &mut [u8], given: &[u8], s: Sink, text: &[u8]) -> Sink
    ensures { Puts given.now out.old s text.now result out.new }
{
    let at = s.at;
    let differs = s.differs;
    if out.len() <= at && differs <= at {
        return Sink {
            at: count_on(at, text.len()),
            differs,
        };
    }
    put_each(out, given, s, text)
}

// The digits from the first to the last: those of a tenth of n come first.
pub fn put_decimal(out: &mut [u8], given: &[u8], s: Sink, n: u64) -> Sink
    ensures { Puts given.now out.old s (decimal n) result out.new }
{
    if n < 10 {
        return put_byte(out, given, s, (48 + n) as u8);
    }
    let next = put_decimal(out, given, s, n / 10);
    put_byte(out, given, next, (48 + n % 10) as u8)
}
