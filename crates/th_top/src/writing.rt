// A text, written as a whole.
ghost use Rattle.std.specs.Prelude.{◌≡◌, ◌<◌, ◌^◌, ◌-◌, OnOk, OnErr, IsOk};
ghost use Rattle.th_outside.specs.Faults.{faults_after_write};
ghost use Rattle.th_top.specs.Writing.{with_text, AddsPart, HasRoomFor};

use th_outside::{Failed, Sink};

/// Writes the text in as many pieces as the sink wants. After a failure a front of it was written.
pub fn write_text<S: Sink>(sink: &mut S, text: &[u8]) -> Result<(), Failed>
    requires { S.faults sink.old < 2 ^ 64 - 1 }
    ensures whole { OnOk result (S.held sink.new ≡ with_text (S.held sink.old) text.now) }
    ensures part { OnErr result (AddsPart (S.held sink.old) text.now (S.held sink.new)) }
    ensures room { HasRoomFor (S.held sink.old) text.now → IsOk result }
    ensures counted { S.faults sink.new ≡ faults_after_write (S.faults sink.old) result }
{
    let mut sent = 0;
    while sent < text.len() {
        sent += sink.write(&text[sent..])?;
    }
    Ok(())
}
