// The text of a report.
ghost use Rattle.std.specs.Prelude.{◌≡◌, ◌+◌, ◌++◌, length, sum_by, IfOk, OnOk};
ghost use Rattle.th_coarse.specs.Report.{text_of, alarm_line, alarm_lines, count_line, filtered_count, handlers_in, handlers_of, mark_text, surviving_count};

use crate::judged::survives;
use crate::{Judged, Mark, write_pair};
use std::alloc::{AllocError, Global};
use th_syntax::{ClassFile, Member, Program};

/// The report of a program with these alarms: how many class files there are, how many entries the
/// exception tables of all code have (none is followed), each alarm with what became of it, and how
/// many were filtered and survive. Each line ends with a line feed.
pub fn write_report(
    alloc: Global,
    program: &Program,
    alarms: &[Judged],
) -> Result<Vec<u8>, AllocError>
    ensures { IfOk result (λ text. text.items ≡ text_of program.now alarms.now) }
{
    let mut text = Vec::new(alloc);
    let handlers = handlers_of(program.files())?;
    write_count(&mut text, "classes ", program.files().len() as u64)?;
    write_count(&mut text, "handlers not followed ", handlers)?;
    write_count(&mut text, "alarms ", alarms.len() as u64)?;
    write_alarms(&mut text, program, alarms)?;
    write_count(&mut text, "filtered ", filtered_count(alarms) as u64)?;
    write_count(&mut text, "surviving ", surviving_count(alarms) as u64)?;
    Ok(text)
}

// How many alarms don't survive.
fn filtered_count(alarms: &[Judged]) -> usize
    ensures { result ≡ filtered_count alarms.now }
{
    alarms.len() - surviving_count(alarms)
}

// How many alarms survive.
fn surviving_count(alarms: &[Judged]) -> usize
    ensures value { result ≡ surviving_count alarms.now }
    ensures others { length alarms.now ≡ result + filtered_count alarms.now }
{
    let mut count = 0;
    for alarm in alarms {
        if survives(alarm) {
            count += 1;
        }
    }
    count
}

// How many entries the exception tables have, in all code.
fn handlers_of(files: &[ClassFile]) -> Result<u64, AllocError>
    ensures { IfOk result (λ count. count ≡ handlers_of files.now) }
{
    let mut count = 0;
    for file in files {
        count = with_handlers(count, file.methods.as_slice())?;
    }
    Ok(count)
}

// A count, and as many more as the exception tables of these methods have entries.
fn with_handlers(count: u64, methods: &[Member]) -> Result<u64, AllocError>
    ensures { IfOk result (λ more. more ≡ count + sum_by handlers_in methods.now) }
{
    let mut more = count;
    for method in methods {
        let Some(next) = more.checked_add(handlers_in(method)) else {
            return Err(AllocError);
        };
        more = next;
    }
    Ok(more)
}

// How many entries the exception table of a method's code has.
fn handlers_in(method: &Member) -> u64
    ensures { result ≡ handlers_in method.now }
{
    match &method.code {
        Some(code) => code.handlers as u64,
        None => 0,
    }
}

// Writes a line with a count.
fn write_count(text: &mut Vec<u8>, label: &str, count: u64) -> Result<(), AllocError>
    ensures { OnOk result (text.new.items ≡ text.old.items ++ count_line label.now count) }
{
    let alloc = *text.allocator();
    let line = format!(in alloc; "{label}{count}\n")?;
    text.extend_from_slice(line.as_bytes())?;
    Ok(())
}

// Writes the lines of alarms, numbered from 1.
fn write_alarms(text: &mut Vec<u8>, program: &Program, alarms: &[Judged]) -> Result<(), AllocError>
    ensures { OnOk result (text.new.items ≡ text.old.items ++ alarm_lines program.now 1 alarms.now) }
{
    let mut number = 0;
    for alarm in alarms {
        number += 1;
        write_alarm(text, program, number, alarm)?;
    }
    Ok(())
}

// Writes the line of an alarm.
fn write_alarm(
    text: &mut Vec<u8>,
    program: &Program,
    number: usize,
    alarm: &Judged,
) -> Result<(), AllocError>
    ensures { OnOk result (text.new.items ≡ text.old.items ++ alarm_line program.now number alarm.now) }
{
    let alloc = *text.allocator();
    let begin = format!(in alloc; "alarm {number}")?;
    text.extend_from_slice(begin.as_bytes())?;
    text.extend_from_slice(mark_text(alarm.mark))?;
    write_pair(text, program, alarm.field, alarm.class)?;
    text.extend_from_slice(b"\n")?;
    Ok(())
}

// The word of a mark.
fn mark_text(mark: Mark) -> &'static [u8]
    ensures { result.now ≡ mark_text mark }
{
    match mark {
        Mark::Filtered => b" filtered ".as_slice(),
        Mark::Survives => b" survives ".as_slice(),
    }
}
