// Class files and what linking them gives, as it was worked out by hand.
use std::alloc::Global;
use std::test::Fail;
use th_base::{Seq, Text};
use th_linker::{can_link, link};
use th_syntax::{ClassFile, Code, Instr, Member, MemberRef, Program, Refusal};

// Each case is some lines that make classes, and one that says what they give.
//   class FLAGS NAME SUPERCLASS INTERFACES   (- for no superclass; the interfaces with commas)
//   field FLAGS NAME DESCRIPTOR              of the class before
//   at OFFSET WORDS                          an instruction of the next method with code
//   code FLAGS NAME DESCRIPTOR               a method with these instructions, then `return`
//   bare FLAGS NAME DESCRIPTOR               a method without code
//   gives NUMBER CLASS MEMBER OFFSET         the refusal (- for nothing)
//   links METHODS                            the files are linked, and the hierarchy has so many methods
const CASES: &str = "\
links 17
class 33 A java/lang/Object
class 33 B A
class 33 A java/lang/Object
gives 13 A - 0
class 33 android/os/Bundle java/lang/Object
gives 14 android/os/Bundle - 0
class 33 A -
gives 17 A - 0
class 33 A android/app/Fragment
gives 15 A android/app/Fragment 0
class 33 A java/lang/Cloneable
gives 17 A java/lang/Cloneable 0
class 1537 A android/app/Activity
gives 17 A android/app/Activity 0
class 1537 A java/lang/Object java/io/Serializable,Gone
gives 15 A Gone 0
class 33 A java/lang/Object android/os/Bundle
gives 17 A android/os/Bundle 0
class 33 D B
class 33 B C java/lang/Cloneable
class 33 C B
gives 17 B C 0
class 1537 I java/lang/Object J
class 1537 J java/lang/Object java/lang/Cloneable,I
gives 17 I J 0
class 33 A java/lang/Object
field 8 x I
field 0 x J
field 0 x I
gives 18 A x:I 0
class 33 A java/lang/Object
code 1 m ()V
code 9 m (I)V
code 9 m ()V
gives 18 A m()V 0
class 33 A java/lang/Object
code 1025 m ()V
gives 18 A m()V 0
class 33 A java/lang/Object
bare 1 m ()I
gives 18 A m()I 0
class 33 A java/lang/Object
code 1 <clinit> ()V
gives 18 A <clinit>()V 0
class 33 A java/lang/Object
code 8 <clinit> (I)V
gives 18 A <clinit>(I)V 0
class 33 A java/lang/Object
bare 1032 <clinit> ()V
gives 18 A <clinit>()V 0
class 33 A java/lang/Object
at 0 new Gone
at 3 new Lost
code 9 m ()V
gives 15 A Gone 0
class 33 A java/lang/Object
at 0 throw
at 1 new Gone
code 9 m ()V
links 18
class 33 A java/lang/Object
at 0 nop
at 1 checkcast [[LGone;
code 9 m ()V
gives 15 A Gone 1
class 33 A java/lang/Object
at 0 checkcast [[Z
at 3 getstatic A s I
code 9 m ()V
gives 16 A A.s:I 3
class 33 A java/lang/Object
field 0 s I
at 0 getstatic A s I
code 9 m ()V
gives 18 A A.s:I 0
class 33 A java/lang/Object
field 8 s I
at 0 getfield A s I
code 9 m ()V
gives 18 A A.s:I 0
class 33 A java/lang/Object
at 0 invokestatic Gone m ()V
code 9 m ()V
gives 15 A Gone 0
class 33 A java/lang/Object
at 0 invokevirtual [LA; clone ()Ljava/lang/Object;
code 9 m ()V
gives 16 A [LA;.clone()Ljava/lang/Object; 0
class 33 A java/lang/Object
at 0 invokevirtual [LGone; clone ()Ljava/lang/Object;
code 9 m ()V
gives 15 A Gone 0
class 33 B A
at 0 invokevirtual B m ()V
code 9 n ()V
class 33 A java/lang/Object
code 1 m ()V
links 19
class 33 B A
at 0 invokespecial B <init> ()V
code 9 n ()V
class 33 A java/lang/Object
code 1 <init> ()V
gives 16 B B.<init>()V 0
class 33 B A
at 0 invokestatic B m ()V
code 9 n ()V
class 33 A java/lang/Object
code 1 m ()V
gives 18 B B.m()V 0
class 33 B A
at 0 invokespecial A p ()V
code 9 n ()V
class 33 A java/lang/Object
code 2 p ()V
links 19
class 33 B java/lang/Object J,K
at 0 invokeinterface J m ()V
at 5 getstatic B k I
code 9 n ()V
class 1537 J java/lang/Object I
class 1537 K java/lang/Object I
class 1537 I java/lang/Object
field 25 k I
bare 1025 m ()V
links 19
class 33 B java/lang/Object
at 0 invokevirtual I m ()V
code 9 n ()V
class 1537 I java/lang/Object
bare 1025 m ()V
gives 18 B I.m()V 0
class 33 B java/lang/Object
at 0 invokeinterface B m ()V
code 1 m ()V
gives 18 B B.m()V 0";

// The classes of a case so far, and the instructions of its next method.
#[derive(Drop)]
pub(crate) struct Draft {
    pub(crate) classes: Vec<ClassFile>,
    pub(crate) instrs: Seq<(u32, Instr)>,
}

pub(crate) fn new_draft(alloc: Global) -> Draft {
    Draft {
        classes: Vec::new(alloc),
        instrs: Seq::new(alloc),
    }
}

pub(crate) fn word<'a>(words: &[&'a str], at: usize) -> &'a str {
    match words.get(at) {
        Some(word) => word,
        None => "-",
    }
}

fn text(alloc: Global, words: &[&str], at: usize) -> Result<Text, Fail> {
    Ok(Text::from_slice(alloc, word(words, at).as_bytes())?)
}

fn number(words: &[&str], at: usize) -> Result<u32, Fail> {
    match word(words, at).parse::<u32>() {
        Ok(number) => Ok(number),
        Err(_) => Err("a line lacks a number".into()),
    }
}

fn flags(words: &[&str]) -> Result<u16, Fail> {
    match word(words, 1).parse::<u16>() {
        Ok(flags) => Ok(flags),
        Err(_) => Err("a line lacks flags".into()),
    }
}

fn class_of(alloc: Global, words: &[&str]) -> Result<ClassFile, Fail> {
    let super_name = match word(words, 3) {
        "-" => None,
        _ => Some(text(alloc, words, 3)?),
    };
    let mut interfaces = Seq::new(alloc);
    for name in word(words, 4).split(',') {
        if name != "-" {
            interfaces.push(Text::from_slice(alloc, name.as_bytes())?)?;
        }
    }
    Ok(ClassFile {
        major: 52,
        access: flags(words)?,
        name: text(alloc, words, 2)?,
        super_name,
        interfaces,
        fields: Seq::new(alloc),
        methods: Seq::new(alloc),
    })
}

fn member_of(alloc: Global, words: &[&str], code: Option<Code>) -> Result<Member, Fail> {
    Ok(Member {
        access: flags(words)?,
        name: text(alloc, words, 2)?,
        descriptor: text(alloc, words, 3)?,
        constant: None,
        code,
    })
}

fn instr_of(alloc: Global, words: &[&str]) -> Result<Instr, Fail> {
    let name = text(alloc, words, 3)?;
    match word(words, 2) {
        "nop" => Ok(Instr::Nop),
        "throw" => Ok(Instr::Throw),
        "return" => Ok(Instr::Return),
        "new" => Ok(Instr::New(name)),
        "checkcast" => Ok(Instr::CheckCast(name)),
        _ => {
            let member = MemberRef {
                owner: name,
                name: text(alloc, words, 4)?,
                descriptor: text(alloc, words, 5)?,
            };
            member_instr(word(words, 2), member)
        }
    }
}

fn member_instr(kind: &str, member: MemberRef) -> Result<Instr, Fail> {
    match kind {
        "getstatic" => Ok(Instr::GetStatic(member)),
        "putstatic" => Ok(Instr::PutStatic(member)),
        "getfield" => Ok(Instr::GetField(member)),
        "invokevirtual" => Ok(Instr::InvokeVirtual(member)),
        "invokespecial" => Ok(Instr::InvokeSpecial(member)),
        "invokeinterface" => Ok(Instr::InvokeInterface(member)),
        "invokestatic" => Ok(Instr::InvokeStatic(member)),
        _ => Err("a line has an unknown instruction".into()),
    }
}

// Adds a method with the instructions of the draft, the last of which returns.
fn add_code(alloc: Global, draft: &mut Draft, words: &[&str]) -> Result<(), Fail> {
    draft.instrs.push((100, Instr::Return))?;
    let instrs = std::mem::replace(&mut draft.instrs, Seq::new(alloc));
    let code = Code {
        max_stack: 2,
        max_locals: 2,
        instrs,
        handlers: 0,
    };
    add_method(draft, member_of(alloc, words, Some(code))?)
}

fn add_method(draft: &mut Draft, method: Member) -> Result<(), Fail> {
    match draft.classes.pop() {
        Some(mut class) => {
            class.methods.push(method)?;
            draft.classes.push(class)?;
            Ok(())
        }
        None => Err("a method comes before its class".into()),
    }
}

fn add_field(draft: &mut Draft, field: Member) -> Result<(), Fail> {
    match draft.classes.pop() {
        Some(mut class) => {
            class.fields.push(field)?;
            draft.classes.push(class)?;
            Ok(())
        }
        None => Err("a field comes before its class".into()),
    }
}

// Follows a line that makes a part of a class.
pub(crate) fn follow(alloc: Global, draft: &mut Draft, words: &[&str]) -> Result<(), Fail> {
    match word(words, 0) {
        "class" => {
            draft.classes.push(class_of(alloc, words)?)?;
            Ok(())
        }
        "field" => add_field(draft, member_of(alloc, words, None)?),
        "bare" => add_method(draft, member_of(alloc, words, None)?),
        "code" => add_code(alloc, draft, words),
        "at" => {
            draft
                .instrs
                .push((number(words, 1)?, instr_of(alloc, words)?))?;
            Ok(())
        }
        _ => Err("a line has an unknown word".into()),
    }
}

// How many methods a program has, with those of the built-in classes.
fn count_methods(program: &Program) -> usize {
    let mut count: usize = 0;
    for class in program.hierarchy().classes() {
        count = count.saturating_add(class.methods.len());
    }
    count
}

// Whether a text is a word, where `-` stands for no bytes.
fn is_word(text: &Text, word: &str) -> bool {
    match word {
        "-" => text.is_empty(),
        _ => text.as_bytes() == word.as_bytes(),
    }
}

fn is_refusal(refusal: &Refusal, words: &[&str]) -> Result<bool, Fail> {
    Ok(
        u32::from(refusal.number) == number(words, 1)?
            && is_word(&refusal.class, word(words, 2))
            && is_word(&refusal.member, word(words, 3))
            && refusal.offset == number(words, 4)?,
    )
}

// Whether linking gives what a line says.
fn gives(alloc: Global, classes: Vec<ClassFile>, words: &[&str]) -> Result<bool, Fail> {
    if !can_link(classes.as_slice()) {
        return Err("there are too many classes".into());
    }
    let linked = word(words, 0) == "links";
    match link(alloc, classes) {
        Ok(program) => Ok(linked && count_methods(&program) == number(words, 1)? as usize),
        Err(th_base::Fail::Refused(refusal)) => Ok(!linked && is_refusal(&refusal, words)?),
        Err(th_base::Fail::NoMemory) => Err("no memory".into()),
    }
}

#[test]
fn class_files_are_linked_or_refused(rt: HostRuntime) -> Result<(), Fail> {
    let alloc = rt.alloc();
    let mut draft = new_draft(alloc);
    for line in CASES.lines() {
        let words: Vec<&str> = line.split(' ').collect(alloc)?;
        match word(words.as_slice(), 0) {
            "links" | "gives" => {
                let Draft { classes, instrs: _ } = std::mem::replace(&mut draft, new_draft(alloc));
                assert!(rt; gives(alloc, classes, words.as_slice())?, "{line}");
            }
            _ => follow(alloc, &mut draft, words.as_slice())?,
        }
    }
    Ok(())
}
