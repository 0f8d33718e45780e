// The check program between its input and its output.
#![tactic(auto)]

ghost use Rattle.std.specs.Prelude.{◌≡◌, ◌++◌, length};
ghost use Rattle.values.specs.Integer.{decimal};
ghost use Rattle.values.specs.Written.{Wrote};
ghost use Rattle.records.specs.Formats.{version_of};
ghost use Rattle.rules.specs.Report.{accepted_line, refused_line};
ghost use Rattle.header.specs.Parsers.{answer_means};
ghost use Rattle.report.specs.Printed.{version_text, counts_text, answer_line, printed};

use entries::form::Form;
use header::parser;
use header::parser::ReadAnswer;
use records::file_format::FileFormat;
use values::output;

// As with `io::buffer`, the contract gives only the length.
fn empty_table() -> [u64; 8192]
    ensures { 8192 ≡ length result }
{
    [0; 8192]
}

fn put_number(out: &mut [u8], at: usize, label: &[u8], n: u64) -> usize
    ensures { Wrote out.old at (label.now ++ decimal n) result out.new }
{
    let next = output::put_bytes(out, at, label);
    output::put_decimal(out, next, n)
}

fn put_version(out: &mut [u8], at: usize, version: FileFormat) -> usize
    ensures { Wrote out.old at (version_text (version_of version)) result out.new }
{
    let major = output::put_decimal(out, at, version.major as u64);
    put_number(out, major, b".", version.minor as u64)
}

// What follows the version in the line of an accepted header.
fn put_counts(out: &mut [u8], at: usize, entries: usize, samples: usize) -> usize
    ensures { Wrote out.old at (counts_text entries samples) result out.new }
{
    let counted = put_number(out, at, b" entries=", entries as u64);
    let sampled = put_number(out, counted, b" samples=", samples as u64);
    output::put_byte(out, sampled, b'\n')
}

fn put_accepted(
    out: &mut [u8],
    at: usize,
    version: FileFormat,
    entries: usize,
    samples: usize,
) -> usize
    ensures { Wrote out.old at (accepted_line (version_of version) entries samples) result out.new }
{
    let begun = output::put_bytes(out, at, b"ok version=");
    let versioned = put_version(out, begun, version);
    put_counts(out, versioned, entries, samples)
}

// The line of a refusal.
pub fn put_refused(out: &mut [u8], at: usize, number: u64, line: usize, start: usize) -> usize
    ensures { Wrote out.old at (refused_line number line start) result out.new }
{
    let numbered = put_number(out, at, b"refused ", number);
    let lined = put_number(out, numbered, b" line=", line as u64);
    let started = put_number(out, lined, b" offset=", start as u64);
    output::put_byte(out, started, b'\n')
}

// The line of an answer, as the check program prints it.
pub fn put_answer(out: &mut [u8], at: usize, answer: ReadAnswer) -> usize
    ensures { Wrote out.old at (answer_line (answer_means answer)) result out.new }
{
    let outcome = answer.outcome;
    match outcome {
        Ok((version, samples)) => put_accepted(out, at, version, answer.entries, samples),
        Err(refusal) => put_refused(out, at, refusal.number(), answer.line, answer.start),
    }
}

// What the program prints of its input.
pub fn print(input: &[u8], out: &mut [u8]) -> usize
    ensures { Wrote out.old 0 (printed input.now) result out.new }
{
    if 65536 < input.len() {
        return put_refused(out, 0, 27, 0, 0);
    }
    let mut table = empty_table();
    let answer = parser::read(input, None, Form::First, &mut table);
    put_answer(out, 0, answer)
}
