// Two sheets of a season as one.
ghost use Rattle.std.specs.Prelude.{◌≡◌};
ghost use Rattle.season.specs.Answers.{merge_number, total_of, merge_answer};

pub type MergeOutcome = Result<(), SeasonRefusal>;

#[derive(Clone, Copy)]
pub enum SeasonRefusal {
    TotalTooLarge,
}

// Document 02's number; 0 if the sheets are merged.
pub fn number(outcome: MergeOutcome) -> u64
    ensures { result ≡ merge_number outcome }
{
    match outcome {
        Ok(()) => 0,
        Err(SeasonRefusal::TotalTooLarge) => 30,
    }
}

// The sheet after it: the first one as it was, if the call is refused.
#[derive(Clone, Copy)]
pub struct MergeAnswer {
    pub outcome: MergeOutcome,
    pub sheet: [u64; 39],
}

fn sum_of(a: u64, b: u64) -> Option<u64>
    ensures { result ≡ total_of a b }
{
    if 18446744073709551615 - a < b {
        return None;
    }
    Some(a + b)
}

// Adds the totals of one sheet to those of another.
pub fn merge(sheet: [u64; 39], other: [u64; 39]) -> MergeAnswer
    ensures { result ≡ merge_answer sheet other }
{
    let mut sums = [0u64; 39];
    for i in 0..39 {
        let Some(n) = sum_of(sheet[i], other[i]) else {
            return MergeAnswer {
                outcome: Err(SeasonRefusal::TotalTooLarge),
                sheet,
            };
        };
        sums[i] = n;
    }
    MergeAnswer {
        outcome: Ok(()),
        sheet: sums,
    }
}
