// The text of a run.
ghost use Rattle.std.specs.Prelude.{◌≡◌, ◌++◌, flat_map, IfOk, OnOk};
ghost use Rattle.th_top.specs.RunText.{rest_word, joined_line, event_lines, joined_at_last, run_text, some_joined};

use std::alloc::{AllocError, Global};
use th_base::{ClassId, FieldId};
use th_coarse::write_pair;
use th_machine::{Outcome, Report};
use th_syntax::Program;

// What came of each event, numbered from 1, and then what is joined.
pub(crate) fn write_run(
    alloc: Global,
    program: &Program,
    reports: &[Report],
) -> Result<Vec<u8>, AllocError>
    ensures { IfOk result (λ text. text.items ≡ run_text program.now reports.now) }
{
    let mut text = Vec::new(alloc);
    let mut number = 0;
    for report in reports {
        number += 1;
        write_event(&mut text, program, number, report)?;
    }
    Ok(text)
}

// Writes what came of the event of a number, and what is joined then.
fn write_event(
    text: &mut Vec<u8>,
    program: &Program,
    number: usize,
    report: &Report,
) -> Result<(), AllocError>
    ensures { OnOk result (text.new.items ≡ text.old.items ++ event_lines program.now number report.now) }
{
    let alloc = *text.allocator();
    let word = rest_word(report.outcome);
    let line = format!(in alloc; "event {number} {word}\n")?;
    text.extend_from_slice(line.as_bytes())?;
    write_all_joined(text, program, report.reached.as_slice())
}

// The word of how an event came to rest.
fn rest_word(outcome: Outcome) -> &'static str
    ensures { result.now ≡ rest_word outcome }
{
    match outcome {
        Outcome::Idle => "idle",
        Outcome::Ended => "ended",
        Outcome::Fuel => "fuel",
        Outcome::Full => "full",
    }
}

// Writes a line for each field and class that are joined.
fn write_all_joined(
    text: &mut Vec<u8>,
    program: &Program,
    pairs: &[(FieldId, ClassId)],
) -> Result<(), AllocError>
    ensures { OnOk result (text.new.items ≡ text.old.items ++ flat_map (joined_line program.now) pairs.now) }
{
    for pair in pairs {
        write_joined(text, program, pair)?;
    }
    Ok(())
}

// Writes the line of a field and a class that are joined.
fn write_joined(
    text: &mut Vec<u8>,
    program: &Program,
    pair: &(FieldId, ClassId),
) -> Result<(), AllocError>
    ensures { OnOk result (text.new.items ≡ text.old.items ++ joined_line program.now pair.now) }
{
    text.extend_from_slice(b"joined ")?;
    write_pair(text, program, pair.0, pair.1)?;
    text.extend_from_slice(b"\n")?;
    Ok(())
}

// What is joined in the last state.
fn joined_at_last(reports: &[Report]) -> &[(FieldId, ClassId)]
    ensures { result.now ≡ joined_at_last reports.now }
{
    match reports.get(reports.len().saturating_sub(1)) {
        Some(last) => last.reached.as_slice(),
        None => &[],
    }
}

// Whether a field and a class are joined in the last state.
pub(crate) fn some_joined(reports: &[Report]) -> bool
    ensures { result ≡ some_joined reports.now }
{
    joined_at_last(reports).len() > 0
}
