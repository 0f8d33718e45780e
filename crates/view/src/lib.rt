// A header view: the lent bytes and the number of the next entry. Each step hands the view back with what it shows.
#![tactic(auto)]

ghost use Rattle.std.specs.Prelude.{◌≡◌, length};
ghost use Rattle.view.specs.Steps.{step_at, moved_to, shown_from};

use entries::form::Form;
use header::shown;
use header::shown::Shown;

#[derive(Clone, Copy)]
pub struct View<'a> {
    pub header: &'a [u8],
    pub at: usize,
}

// What a step shows, and the number of the next entry.
#[derive(Clone, Copy)]
pub struct Stepped {
    pub found: Shown,
    pub at: usize,
}

// The view handed back, with what the step shows.
#[derive(Clone, Copy)]
pub struct Moved<'a> {
    pub view: View<'a>,
    pub found: Shown,
}

// The entry of this number, and the next number; the same one where the entry is refused.
pub fn step_at(h: &[u8], table: &[u64], form: Form, at: usize) -> Stepped
    ensures { result ≡ step_at form h.now table.now at }
{
    let found = shown::entry(h, table, form, at);
    match found {
        Some(_) => Stepped { found, at: at + 1 },
        None => Stepped { found, at },
    }
}

impl<'a> View<'a> {
    // Before the first entry.
    pub fn new(header: &'a [u8]) -> View<'a>
        ensures { (result.header ≡ header.entry) × (result.at ≡ 0) }
    {
        View { header, at: 0 }
    }

    pub fn next(self, table: &[u64], form: Form) -> Moved<'a>
        ensures { result ≡ moved_to self.entry (step_at form self.entry.header.now table.now self.entry.at) }
    {
        let p = step_at(self.header, table, form, self.at);
        Moved {
            view: View { at: p.at, ..self },
            found: p.found,
        }
    }
}

// One step of a view that stands at this number, for callers that hold none.
pub fn step_from(h: &[u8], table: &[u64], form: Form, at: usize) -> Stepped
    ensures { result ≡ step_at form h.now table.now at }
{
    let m = View { header: h, at }.next(table, form);
    Stepped {
        found: m.found,
        at: m.view.at,
    }
}

// How many entries a view shows from number `first` on, up to the first that is refused.
pub fn count_from(h: &[u8], table: &[u64], form: Form, first: usize) -> usize
    ensures { result ≡ length (shown_from form h.now table.now first) }
{
    let mut at = first;
    // Kept: no plainer. The walk goes from step to step to the first refusal; there is nothing that a `for` could go over.
    loop {
        let p = step_from(h, table, form, at);
        match p.found {
            Some(_) => at = p.at,
            None => return at - first,
        }
    }
}
