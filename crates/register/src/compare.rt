// The wells in which two registers differ.
ghost use Rattle.std.specs.Prelude.{◌≡◌};
ghost use Rattle.register.specs.Compare.{differing};
ghost use Rattle.register.specs.Compared.{listed_in_arrays};

// How many differ; then, lowest first, each well's number, 1 to 40, what it had and what it has; 0 past these.
#[derive(Clone, Copy)]
pub struct Differences {
    pub count: usize,
    pub wells: [u64; 40],
    pub old: [u64; 40],
    pub new: [u64; 40],
}

pub fn compare(old: [u64; 40], new: [u64; 40]) -> Differences
    ensures { result ≡ listed_in_arrays (differing 1 old new) }
{
    let mut wells = [0u64; 40];
    let mut before = [0u64; 40];
    let mut after = [0u64; 40];
    let mut count = 0;
    for w in 0..40 {
        let a = old[w];
        let b = new[w];
        if a != b {
            wells[count] = w as u64 + 1;
            before[count] = a;
            after[count] = b;
            count += 1;
        }
    }
    Differences {
        count,
        wells,
        old: before,
        new: after,
    }
}
