// The top call.
ghost use Rattle.std.specs.Prelude.{◌≡◌, ◌≢◌, ◌<◌, ◌-◌, ◌^◌, ◌⊎◌, ◌↔◌, List, ℕ, Ok, Some, IsErr, IfOk, IsTrue};
ghost use Rattle.th_outside.specs.Store.{NamedFile};
ghost use Rattle.th_syntax.specs.declared.class_file.ClassFile.{ClassFile};
ghost use Rattle.th_syntax.specs.declared.refusal.Refusal.{Refusal};
ghost use Rattle.th_coarse.specs.declared.judged.Judged.{Judged};
ghost use Rattle.th_harness.specs.declared.script_error.ScriptError.{ScriptError};
ghost use Rattle.th_words.specs.declared.command.Command.{Command};
ghost use Rattle.th_top.specs.Asked.{asked, lifecycle_in};
ghost use Rattle.th_top.specs.Outcome.{Outcome, reports, misuses, refuses, lacks, Comes, IsFault, output_of};
ghost use Rattle.th_top.specs.Writing.{HasRoomFor};
ghost use Rattle.th_top.specs.Answer as answer;

use crate::Status;
use crate::decide::decide;
use crate::laws::{all_joined_survive, one_outcome};
use crate::writing::write_text;
use std::alloc::Global;
use std::thread::Threads;
use th_outside::{Failed, Files, Gate, Sink};

// Writes a line to the errors, as far as they take it.
fn say<E: Sink>(err: &mut E, line: &[u8])
    requires { E.faults err.old < 2 ^ 64 - 1 }
    ensures { answer.HasLine (E.held err.old) line.now (E.faults err.old) (E.held err.new) (E.faults err.new) }
{
    let _ = write_text(err, line);
}

/// Does all that the program does: reads the words, reads the files that they name, and writes the
/// report of their program, or what comes of a script in it. Where the words are no command nothing is
/// read. The first fault of `files` or `out` ends the run. Each status but `NoMemory` comes exactly where
/// its clauses say; want of memory may come in place of any answer that is found before the output is
/// written.
pub fn thresher<T: Threads + Sync, F: Files, O: Sink, E: Sink, G: Gate + Sync>(
    rt: &T,
    alloc: Global,
    words: &[String],
    files: &mut F,
    out: &mut O,
    err: &mut E,
    _gate: &G,
) -> Status
    requires files_count { F.faults files.old < 2 ^ 64 - 1 }
    requires out_count { O.faults out.old < 2 ^ 64 - 1 }
    requires err_count { E.faults err.old < 2 ^ 64 - 1 }

    // The words are no command, and nothing is read; or the script has a fault.
    ensures usage { result ≡ Status.Usage → IfOk (asked words.now) (answer.Misuses (F.told files.old) (F.faults files.old) (F.faults files.new)) }
    ensures usage_always { IsErr (asked words.now) → (result ≡ Status.Usage) ⊎ (result ≡ Status.NoMemory) }
    ensures unread { IsErr (asked words.now) → files.new ≡ files.old }
    ensures script_always { (command : Command) (store : List NamedFile) (error : ScriptError) → asked words.now ≡ Ok command
        → F.told files.old ≡ Some store → Comes (Some store) command (misuses error) → F.faults files.new ≡ F.faults files.old
        → (result ≡ Status.Usage) ⊎ (result ≡ Status.NoMemory) }

    // The files are refused, for the first refusal.
    ensures refused { result ≡ Status.Refused → IfOk (asked words.now) (answer.Refuses (F.told files.old) (F.faults files.old) (F.faults files.new)) }
    ensures refused_always { (command : Command) (store : List NamedFile) (refusal : Refusal) → asked words.now ≡ Ok command
        → F.told files.old ≡ Some store → Comes (Some store) command (refuses refusal) → F.faults files.new ≡ F.faults files.old
        → (result ≡ Status.Refused) ⊎ (result ≡ Status.NoMemory) }

    // A file is missing, or a read of it failed.
    ensures read_fault { result ≡ Status.ReadFault
        → IfOk (asked words.now) (answer.FailsToRead (F.told files.old) (F.faults files.old) (F.faults files.new) (F.failed files.new)) }
    ensures read_fault_always { F.faults files.old < F.faults files.new → (result ≡ Status.ReadFault) ⊎ (result ≡ Status.NoMemory) }
    ensures missing_always { (command : Command) (store : List NamedFile) (name : List ℕ) → asked words.now ≡ Ok command
        → F.told files.old ≡ Some store → Comes (Some store) command (lacks name) → (result ≡ Status.ReadFault) ⊎ (result ≡ Status.NoMemory) }
    ensures fault_named { IfOk (asked words.now) (answer.FaultIsNamed (F.told files.old) (F.faults files.old) (F.faults files.new) (F.failed files.new)) }

    // The program is accepted, and its whole report, or what came of the whole script, was written.
    ensures none { result ≡ Status.NoneSurvive → IfOk (asked words.now)
        (answer.Writes Status.NoneSurvive (F.told files.old) (F.faults files.old) (F.faults files.new) (O.held out.old) (O.held out.new)) }
    ensures some { result ≡ Status.SomeSurvive → IfOk (asked words.now)
        (answer.Writes Status.SomeSurvive (F.told files.old) (F.faults files.old) (F.faults files.new) (O.held out.old) (O.held out.new)) }
    ensures outcome_always { (command : Command) (store : List NamedFile) (outcome : Outcome) → asked words.now ≡ Ok command
        → F.told files.old ≡ Some store → Comes (Some store) command outcome → (IsFault outcome → ⊥) → F.faults files.new ≡ F.faults files.old
        → O.faults out.new ≡ O.faults out.old
        → answer.ShowsWhole outcome result (O.held out.old) (O.held out.new) ⊎ (result ≡ Status.NoMemory) }

    // Every static field and Activity class that some run joins survive in the report that was written:
    // a pair that doesn't is joined in no reachable state of any run under the command's lifecycle.
    ensures safe { (command : Command) (store : List NamedFile) (classes : List ClassFile) (report : List Judged) → asked words.now ≡ Ok command
        → F.told files.old ≡ Some store → Comes (Some store) command (reports classes report) → F.faults files.new ≡ F.faults files.old
        → O.faults out.new ≡ O.faults out.old
        → answer.PrintsAllJoined (lifecycle_in command) classes report (O.held out.old) (O.held out.new) ⊎ (result ≡ Status.NoMemory) }

    // A part of the output was written.
    ensures write_fault { (result ≡ Status.WriteFault) ↔ (O.faults out.old < O.faults out.new) }
    ensures part { result ≡ Status.WriteFault → IfOk (asked words.now)
        (answer.Stops (F.told files.old) (F.faults files.old) (F.faults files.new) (O.held out.old) (O.held out.new)) }

    // Under every other status the output is as before.
    ensures out_kept { result ≢ Status.NoneSurvive → result ≢ Status.SomeSurvive → result ≢ Status.WriteFault → O.held out.new ≡ O.held out.old }

    // What the errors say.
    ensures line { answer.Says (answer.IsLine result (asked words.now) (F.told files.old) (F.faults files.old) (F.faults files.new) (F.failed files.new))
        (E.held err.old) (E.faults err.old) (E.held err.new) (E.faults err.new) }

    // One fault ends the run; a steady store has none, and neither has a sink with room for the output.
    ensures files_counted { answer.CountsOnce (F.faults files.old) (F.faults files.new) }
    ensures out_counted { answer.CountsOnce (O.faults out.old) (O.faults out.new) }
    ensures steady { IsTrue (F.steady files.old) → F.faults files.new ≡ F.faults files.old }
    ensures room { (command : Command) (store : List NamedFile) (outcome : Outcome) → asked words.now ≡ Ok command
        → F.told files.old ≡ Some store → Comes (Some store) command outcome → (IsFault outcome → ⊥) → HasRoomFor (O.held out.old) (output_of outcome)
        → O.faults out.new ≡ O.faults out.old }
    ensures same_files { F.told files.new ≡ F.told files.old }
{
    one_outcome();
    all_joined_survive();
    let Ok(decided) = decide(rt, alloc, words, files) else {
        say(err, b"no memory\n");
        return Status::NoMemory;
    };
    match write_text(out, decided.text.as_bytes()) {
        Ok(()) => {
            say(err, decided.line.as_bytes());
            decided.status
        }
        Err(Failed) => {
            say(err, b"write fault\n");
            Status::WriteFault
        }
    }
}
