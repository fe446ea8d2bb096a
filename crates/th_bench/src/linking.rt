// Class files that are linked.
use std::alloc::{AllocError, Global};
use th_base::{Fail, OBJECT, Seq, Text};
use th_linker::{can_link, link};
use th_syntax::{ClassFile, Code, Instr, Member, MemberRef, limit};

// How many methods a class has, and how many the built-in classes have.
const METHODS: u32 = 16;

const BUILT_IN_METHODS: u32 = 17;

// How many times the code of a method names each kind of what may be named.
const ROUNDS: u32 = 3;

// How many classes extend each other in a row.
const ROW: u32 = 8;

fn numbered(alloc: Global, letter: char, number: u32) -> Result<Text, AllocError> {
    Text::from_vec(format!(in alloc; "{letter}{number}")?.into_bytes())
}

fn bytes(alloc: Global, text: &str) -> Result<Text, AllocError> {
    Text::from_slice(alloc, text.as_bytes())
}

fn member(
    alloc: Global,
    access: u16,
    name: Text,
    descriptor: &str,
    code: Option<Code>,
) -> Result<Member, AllocError> {
    Ok(Member {
        access,
        name,
        descriptor: bytes(alloc, descriptor)?,
        constant: None,
        code,
    })
}

fn reference(
    alloc: Global,
    owner: &Text,
    name: Text,
    descriptor: &str,
) -> Result<MemberRef, AllocError> {
    Ok(MemberRef {
        owner: owner.copy(alloc)?,
        name,
        descriptor: bytes(alloc, descriptor)?,
    })
}

// The instructions of a method, which name a class, its field and its methods.
fn code(alloc: Global, class: &Text, number: u32) -> Result<Code, AllocError> {
    let mut instrs = Seq::new(alloc);
    for round in 0..ROUNDS {
        let at = round * 24;
        let method = numbered(alloc, 'm', number % METHODS)?;
        let field = reference(alloc, class, bytes(alloc, "s")?, "I")?;
        let call = reference(alloc, class, method, "()V")?;
        instrs.push((at, Instr::GetStatic(field)))?;
        instrs.push((at + 3, Instr::IfZero(th_base::Relation::Eq, at + 18)))?;
        instrs.push((at + 6, Instr::New(class.copy(alloc)?)))?;
        instrs.push((at + 9, Instr::CheckCast(class.copy(alloc)?)))?;
        instrs.push((at + 12, Instr::InvokeVirtual(call)))?;
        instrs.push((at + 15, Instr::Nop))?;
        instrs.push((at + 18, Instr::Null))?;
    }
    instrs.push((ROUNDS * 24, Instr::Return))?;
    Ok(Code {
        max_stack: 2,
        max_locals: 1,
        instrs,
        handlers: 0,
    })
}

// A class, with a static field and so many methods, whose code names the class of another number.
fn class(alloc: Global, number: u32, other: u32, methods: u32) -> Result<ClassFile, AllocError> {
    let super_name = if number % ROW == 0 {
        bytes(alloc, OBJECT)?
    } else {
        numbered(alloc, 'C', number - 1)?
    };
    let other = numbered(alloc, 'C', other)?;
    let mut class = ClassFile {
        major: 52,
        access: 33,
        name: numbered(alloc, 'C', number)?,
        super_name: Some(super_name),
        interfaces: Seq::new(alloc),
        fields: Seq::new(alloc),
        methods: Seq::new(alloc),
    };
    let name = bytes(alloc, "s")?;
    class.fields.push(member(alloc, 9, name, "I", None)?)?;
    for number in 0..methods {
        let name = numbered(alloc, 'm', number)?;
        let code = code(alloc, &other, number)?;
        class
            .methods
            .push(member(alloc, 1, name, "()V", Some(code))?)?;
    }
    Ok(class)
}

// So many classes that name each other are linked, with as many methods as may be: how many methods
// the program has.
pub fn links(alloc: Global, size: u32) -> Result<u64, AllocError> {
    let mut left = limit::MOST_METHODS as u32 - BUILT_IN_METHODS;
    let mut classes = Vec::new(alloc);
    for number in 0..size {
        let methods = METHODS.min(left);
        left -= methods;
        let other = size - 1 - number;
        classes.push(class(alloc, number, other, methods)?)?;
    }
    if !can_link(classes.as_slice()) {
        return Ok(0);
    }
    match link(alloc, classes) {
        Ok(program) => {
            let mut count: u64 = 0;
            for class in program.hierarchy().classes() {
                count = count.saturating_add(class.methods.len() as u64);
            }
            Ok(count)
        }
        Err(Fail::Refused(_)) => Ok(0),
        Err(Fail::NoMemory) => Err(AllocError),
    }
}
