// The coarse report of small programs, as it was worked out by hand.
use crate::linking::{Draft, follow, new_draft, word};
use std::alloc::Global;
use std::test::Fail;
use th_coarse::{coarse_alarms, some_survive, write_report};
use th_linker::{can_link, link};
use th_syntax::ClassFile;

// Each case is some lines that make classes, as those of `linking`, and the lines of their report.
const CASES: &str = "\
says classes 0
says handlers not followed 0
says alarms 0
says filtered 0
says surviving 0
end
class 33 Act android/app/Activity
field 8 last LAct;
code 1 <init> ()V
at 0 putstatic Act last LAct;
code 1 onCreate (Landroid/os/Bundle;)V
says classes 1
says handlers not followed 0
says alarms 1
says alarm 1 survives Act.last:LAct; -> Act
says filtered 0
says surviving 1
end
class 33 Act android/app/Activity
field 8 last LAct;
code 1 <init> ()V
at 0 return
at 1 putstatic Act last LAct;
code 1 onCreate (Landroid/os/Bundle;)V
says classes 1
says handlers not followed 0
says alarms 0
says filtered 0
says surviving 0
end
class 33 Act android/app/Activity
field 8 last LAct;
code 1 <init> (I)V
at 0 putstatic Act last LAct;
code 1 onCreate (Landroid/os/Bundle;)V
says classes 1
says handlers not followed 0
says alarms 0
says filtered 0
says surviving 0
end
class 33 Holder java/lang/Object Shared
field 8 count I
at 0 putstatic Holder kept [Ljava/lang/Object;
at 3 putstatic Holder count I
at 6 new Base
code 9 keep ()V
class 1537 Shared java/lang/Object
field 25 kept [Ljava/lang/Object;
class 1057 Base android/app/Activity
code 1 <init> ()V
says classes 3
says handlers not followed 0
says alarms 1
says alarm 1 survives Shared.kept:[Ljava/lang/Object; -> Base
says filtered 0
says surviving 1
end
class 33 Holder java/lang/Object
field 8 a Ljava/lang/Object;
field 8 b Ljava/lang/Object;
at 0 putstatic Holder b Ljava/lang/Object;
at 3 putstatic Holder a Ljava/lang/Object;
at 6 new android/app/Activity
code 9 keep ()V
class 33 Act android/app/Activity
code 1 <init> ()V
says classes 2
says handlers not followed 0
says alarms 4
says alarm 1 survives Holder.a:Ljava/lang/Object; -> android/app/Activity
says alarm 2 survives Holder.a:Ljava/lang/Object; -> Act
says alarm 3 survives Holder.b:Ljava/lang/Object; -> android/app/Activity
says alarm 4 survives Holder.b:Ljava/lang/Object; -> Act
says filtered 0
says surviving 4
end";

// The report of these classes, and whether some alarm survives in it.
fn report_of(alloc: Global, classes: Vec<ClassFile>) -> Result<(Vec<u8>, bool), Fail> {
    if !can_link(classes.as_slice()) {
        return Err("there are too many classes".into());
    }
    let program = match link(alloc, classes) {
        Ok(program) => program,
        Err(_) => return Err("the classes aren't linked".into()),
    };
    let alarms = coarse_alarms(alloc, &program)?;
    if !alarms.are_few() {
        return Err("there are too many alarms".into());
    }
    let judged = alarms.surviving(alloc)?;
    let text = write_report(alloc, &program, judged.as_slice())?;
    Ok((text, some_survive(judged.as_slice())))
}

#[test]
fn small_programs_are_reported(rt: HostRuntime) -> Result<(), Fail> {
    let alloc = rt.alloc();
    let mut draft = new_draft(alloc);
    let mut expected = Vec::new(alloc);
    for line in CASES.lines() {
        let words: Vec<&str> = line.split(' ').collect(alloc)?;
        match word(words.as_slice(), 0) {
            "says" => {
                let said = line.strip_prefix("says ").unwrap_or("");
                expected.extend_from_slice(said.as_bytes())?;
                expected.push(10)?;
            }
            "end" => {
                let Draft { classes, instrs: _ } = std::mem::replace(&mut draft, new_draft(alloc));
                let (text, some) = report_of(alloc, classes)?;
                assert_eq!(rt; text.as_slice(), expected.as_slice());
                assert_eq!(rt; some, !text.ends_with(b"surviving 0\n"));
                expected.clear();
            }
            _ => follow(alloc, &mut draft, words.as_slice())?,
        }
    }
    Ok(())
}
