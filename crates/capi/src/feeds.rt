// Headers in pieces, for C: the state is a struct of numbers, taken by value and handed back inside the answer.
ghost use Rattle.std.specs.Prelude.{◌≡◌};
ghost use Rattle.header.specs.Verdicts.{imposed_of, stage_of};
ghost use Rattle.feed.specs.Feeding.{start_of};
ghost use Rattle.feed.specs.Calls.{ended_means, state_means, feed_means};
ghost use Rattle.capi.specs.Answers.{imposed_by, form_by};
ghost use Rattle.capi.specs.Feeds.{phase_meant, stage_by, open_by, imposed_in, phase_in, end_in, feed_as, fed_as, broken_in, over_in, feed_in_c, close_in_c, LeavesInC, ClosesInC};

use crate::{form_of, imposed_by, number_of};
use entries::form::Form;
use feed::cable;
use feed::cable::{FeedAnswer, FeedState};
use header::parser::{Parser, ReadAnswer};
use header::phase::Phase;
use records::file_format::FileFormat;
use records::refusal::Refusal;

// The version imposed, where `imposed` is not 0; the phase, 0 before the fileformat line, 1 after it and 2 after the column line, with the
// version in force and the number of samples; how many bytes are held, where the next line begins, how many lines were read and entries
// kept. Where `over` is not 0 the four numbers after it are the final answer.
#[repr(C)]
#[derive(Clone, Copy)]
pub struct VcfhFeed {
    pub imposed: u64,
    pub imposed_major: u32,
    pub imposed_minor: u32,
    pub phase: u64,
    pub major: u32,
    pub minor: u32,
    pub samples: u64,
    pub held: u64,
    pub at: u64,
    pub lines: u64,
    pub kept: u64,
    pub over: u64,
    pub number: u64,
    pub line: u64,
    pub start: u64,
    pub entries: u64,
}

// An answer, and the state for the next call.
#[repr(C)]
#[derive(Clone, Copy)]
pub struct VcfhFed {
    pub number: u64,
    pub line: u64,
    pub start: u64,
    pub entries: u64,
    pub state: VcfhFeed,
}

#[derive(Clone, Copy)]
struct ImposedParts {
    imposed: u64,
    major: u32,
    minor: u32,
}

#[derive(Clone, Copy)]
struct PhaseParts {
    phase: u64,
    major: u32,
    minor: u32,
    samples: u64,
}

#[derive(Clone, Copy)]
struct EndParts {
    over: u64,
    number: u64,
    line: u64,
    start: u64,
    entries: u64,
}

// None where the number is no phase's.
fn phase_by(phase: u64, major: u32, minor: u32, samples: u64) -> Option<Phase>
    ensures { phase_meant result ≡ stage_by phase major minor samples }
{
    let version = FileFormat::new(major, minor);
    match phase {
        0 => Some(Phase::Empty),
        1 => Some(Phase::Ready(version)),
        2 => Some(Phase::Done(version, samples as usize)),
        _ => None,
    }
}

// The state as it is, but for its final answer.
fn open_state(state: VcfhFeed, phase: Phase) -> FeedState
    ensures { state_means result ≡ open_by state (stage_of phase) }
{
    let imposed = imposed_by(state.imposed, state.imposed_major, state.imposed_minor);
    let parser = Parser {
        phase,
        line: state.lines as usize,
        at: state.at as usize,
        count: state.kept as usize,
    };
    FeedState {
        imposed,
        parser,
        held: state.held as usize,
        ended: None,
    }
}

fn imposed_parts(imposed: Option<FileFormat>) -> ImposedParts
    ensures { result ≡ imposed_in (imposed_of imposed) }
{
    match imposed {
        None => ImposedParts {
            imposed: 0,
            major: 0,
            minor: 0,
        },
        Some(version) => ImposedParts {
            imposed: 1,
            major: version.major,
            minor: version.minor,
        },
    }
}

fn phase_parts(phase: Phase) -> PhaseParts
    ensures { result ≡ phase_in (stage_of phase) }
{
    match phase {
        Phase::Empty => PhaseParts {
            phase: 0,
            major: 0,
            minor: 0,
            samples: 0,
        },
        Phase::Ready(version) => PhaseParts {
            phase: 1,
            major: version.major,
            minor: version.minor,
            samples: 0,
        },
        Phase::Done(version, samples) => PhaseParts {
            phase: 2,
            major: version.major,
            minor: version.minor,
            samples: samples as u64,
        },
    }
}

fn end_parts(ended: Option<ReadAnswer>) -> EndParts
    ensures { result ≡ end_in (ended_means ended) }
{
    match ended {
        None => EndParts {
            over: 0,
            number: 0,
            line: 0,
            start: 0,
            entries: 0,
        },
        Some(a) => {
            let outcome = a.outcome;
            let number = number_of(outcome);
            EndParts {
                over: 1,
                number,
                line: a.line as u64,
                start: a.start as u64,
                entries: a.entries as u64,
            }
        }
    }
}

fn state_in(state: FeedState) -> VcfhFeed
    ensures { result ≡ feed_as (state_means state) }
{
    let parser = state.parser;
    let option = state.imposed;
    let stage = parser.phase;
    let ended = state.ended;
    let imposed = imposed_parts(option);
    let phase = phase_parts(stage);
    let end = end_parts(ended);
    VcfhFeed {
        imposed: imposed.imposed,
        imposed_major: imposed.major,
        imposed_minor: imposed.minor,
        phase: phase.phase,
        major: phase.major,
        minor: phase.minor,
        samples: phase.samples,
        held: state.held as u64,
        at: parser.at as u64,
        lines: parser.line as u64,
        kept: parser.count as u64,
        over: end.over,
        number: end.number,
        line: end.line,
        start: end.start,
        entries: end.entries,
    }
}

fn fed(answer: FeedAnswer) -> VcfhFed
    ensures { result ≡ fed_as (feed_means answer) }
{
    let outcome = answer.outcome;
    let number = cable::number(outcome);
    let next = answer.state;
    let state = state_in(next);
    VcfhFed {
        number,
        line: answer.line as u64,
        start: answer.start as u64,
        entries: answer.entries as u64,
        state,
    }
}

fn broken(state: VcfhFeed) -> VcfhFed
    ensures { result ≡ broken_in state }
{
    let refusal = Refusal::InvalidEntry;
    let number = refusal.number();
    VcfhFed {
        number,
        line: 0,
        start: 0,
        entries: 0,
        state,
    }
}

// A state that has ended repeats its answer, if it is sound.
fn over(state: VcfhFeed, was: FeedState, form: Form, buffer: &[u8], table: &[u64]) -> VcfhFed
    ensures { result ≡ over_in state form (state_means was) buffer.now table.now }
{
    if !cable::is_sound(was, form, buffer, table) {
        return broken(state);
    }
    VcfhFed {
        number: state.number,
        line: state.line,
        start: state.start,
        entries: state.entries,
        state,
    }
}

// The state before the first piece.
#[unsafe(no_mangle)]
pub extern "C" fn vcfh_feed_start(imposed: u64, major: u32, minor: u32) -> VcfhFeed
    ensures { result ≡ feed_as (start_of (imposed_by imposed major minor)) }
{
    state_in(cable::start(imposed_by(imposed, major, minor)))
}

// Takes a piece into the buffer, after the bytes held, and reads the lines that are complete then into the table.
#[unsafe(no_mangle)]
pub extern "C" fn vcfh_feed(
    state: VcfhFeed,
    piece: &[u8],
    form: u64,
    buffer: &mut [u8],
    table: &mut [u64],
) -> VcfhFed
    ensures { LeavesInC (feed_in_c state (form_by form) piece.now buffer.old table.old) result buffer.new table.new }
{
    let named = form_of(form);
    let Some(phase) = phase_by(state.phase, state.major, state.minor, state.samples) else {
        return broken(state);
    };
    let was = open_state(state, phase);
    if state.over != 0 {
        return over(state, was, named, buffer, table);
    }
    fed(cable::feed(was, piece, named, buffer, table))
}

// The sender has no more: what is left is the last line.
#[unsafe(no_mangle)]
pub extern "C" fn vcfh_close(
    state: VcfhFeed,
    form: u64,
    buffer: &[u8],
    table: &mut [u64],
) -> VcfhFed
    ensures { ClosesInC (close_in_c state (form_by form) buffer.now table.old) result table.new }
{
    let named = form_of(form);
    let Some(phase) = phase_by(state.phase, state.major, state.minor, state.samples) else {
        return broken(state);
    };
    let was = open_state(state, phase);
    if state.over != 0 {
        return over(state, was, named, buffer, table);
    }
    fed(cable::close(was, named, buffer, table))
}
