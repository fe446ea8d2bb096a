// Points-to facts of small programs, worked out by hand from the rules.
use std::alloc::{AllocError, Global};
use std::process::Abort;
use std::test::Fail;
use th_base::{
    ClassId, ClassInfo, Elem, FieldId, FieldInfo, Hierarchy, IdSet, MethodId, MethodInfo, NodeId,
    Reg, Seq, SiteId, Text, acyclic,
};
use th_ir::{CallKind, Facts, Method, Node, Place, RegProgram, Site, Stmt};
use th_points_to::{Analysis, analyse};

fn words(alloc: Global, line: &[u8]) -> Result<Vec<&[u8]>, AllocError> {
    line.split(|b| *b == b' ').collect(alloc)
}

fn word<'a>(words: &[&'a [u8]], at: usize) -> &'a [u8] {
    match words.get(at) {
        Some(word) => *word,
        None => b"".as_slice(),
    }
}

fn letter(words: &[&[u8]], at: usize) -> u8 {
    match word(words, at) {
        [letter, ..] => *letter,
        [] => b' ',
    }
}

fn number(words: &[&[u8]], at: usize) -> u32 {
    let mut number = 0u32;
    for digit in word(words, at) {
        let digit = u32::from(digit.wrapping_sub(b'0'));
        number = number.wrapping_mul(10).wrapping_add(digit);
    }
    number
}

// A number, or `-` for none.
fn some_number(words: &[&[u8]], at: usize) -> Option<u32> {
    match letter(words, at) {
        b'-' => None,
        _ => Some(number(words, at)),
    }
}

fn text(alloc: Global, bytes: &[u8]) -> Result<Text, AllocError> {
    Text::from_slice(alloc, bytes)
}

fn reg(words: &[&[u8]], at: usize) -> Reg {
    Reg(number(words, at))
}

// The registers from a word on.
fn regs(alloc: Global, words: &[&[u8]], from: usize) -> Result<Seq<Reg>, AllocError> {
    let mut regs = Seq::new(alloc);
    for at in from..words.len() {
        regs.push(reg(words, at))?;
    }
    Ok(regs)
}

fn special(words: &[&[u8]], at: usize) -> CallKind {
    match some_number(words, at) {
        Some(target) => CallKind::Special(Some(MethodId(target))),
        None => CallKind::Special(None),
    }
}

fn dst(words: &[&[u8]], at: usize) -> Option<Reg> {
    match some_number(words, at) {
        Some(number) => Some(Reg(number)),
        None => None,
    }
}

// Calls: `v` virtual, `x` special with its target, `t` static; the result, the method, the arguments.
fn call(alloc: Global, words: &[&[u8]]) -> Result<Stmt, AllocError> {
    let dst = dst(words, 2);
    let method = MethodId(number(words, 3));
    match letter(words, 1) {
        b'v' => Ok(Stmt::Call(dst, CallKind::Virtual, method, regs(alloc, words, 4)?)),
        b'x' => Ok(Stmt::Call(dst, special(words, 4), method, regs(alloc, words, 5)?)),
        _ => Ok(Stmt::Call(dst, CallKind::Static, method, regs(alloc, words, 4)?)),
    }
}

// What a node does: a letter behind its method, and registers, fields, sites and classes by number.
fn stmt(alloc: Global, words: &[&[u8]]) -> Result<Stmt, AllocError> {
    let first = reg(words, 2);
    let second = number(words, 3);
    match letter(words, 1) {
        b'n' => Ok(Stmt::New(first, SiteId(second))),
        b'a' => Ok(Stmt::NewArray(first, SiteId(second), Reg(0))),
        b's' => Ok(Stmt::Str(first, SiteId(second))),
        b'm' => Ok(Stmt::Copy(Seq::from_slice(alloc, &[(first, Reg(second))])?)),
        b'g' => Ok(Stmt::GetStatic(first, FieldId(second))),
        b'p' => Ok(Stmt::PutStatic(FieldId(first.0), Reg(second))),
        b'l' => Ok(Stmt::GetField(first, Reg(second), FieldId(number(words, 4)))),
        b'w' => Ok(Stmt::PutField(first, FieldId(second), reg(words, 4))),
        b'e' => Ok(Stmt::GetElem(first, Reg(second), Elem::Ref)),
        b'b' => Ok(Stmt::GetElem(first, Reg(second), Elem::Byte)),
        b'u' => Ok(Stmt::PutElem(first, Reg(second))),
        b'c' => Ok(Stmt::Cast(first, Reg(second), text(alloc, word(words, 4))?)),
        b'i' => Ok(Stmt::Init(ClassId(first.0))),
        b'k' => Ok(Stmt::Pick(first, ClassId(second))),
        b'r' => Ok(Stmt::Return(dst(words, 2))),
        _ => call(alloc, words),
    }
}

fn node(alloc: Global, words: &[&[u8]]) -> Result<Node, AllocError> {
    Ok(Node {
        method: MethodId(number(words, 0)),
        offset: 0,
        stmt: stmt(alloc, words)?,
        next: Seq::new(alloc),
        loop_head: false,
    })
}

// A line of a program: `P` a method with its parameters, `S` a site with its class, and the class whose
// launches it is; `H` a method of the harness, `K` a field with its String constant; else a node.
fn add_line(alloc: Global, program: &mut RegProgram, words: &[&[u8]]) -> Result<(), AllocError> {
    match letter(words, 0) {
        b'P' => program.methods.push(Method {
            owner: None,
            entry: NodeId(0),
            params: regs(alloc, words, 1)?,
            returns: Seq::new(alloc),
        }),
        b'S' => program.sites.push(Site {
            class: text(alloc, word(words, 1))?,
            place: match word(words, 2) {
                [] => Place::Event,
                _ => Place::Launch(ClassId(number(words, 2))),
            },
        }),
        b'H' => program.harness.push(MethodId(number(words, 1))),
        b'K' => {
            let constant = (FieldId(number(words, 1)), SiteId(number(words, 2)));
            program.strings.push(constant)
        }
        _ => program.nodes.push(node(alloc, words)?),
    }
}

fn program(alloc: Global, source: &[u8]) -> Result<RegProgram, AllocError> {
    let mut program = RegProgram {
        methods: Seq::new(alloc),
        nodes: Seq::new(alloc),
        sites: Seq::new(alloc),
        harness: Seq::new(alloc),
        refs: IdSet::new(alloc),
        ints: Seq::new(alloc),
        strings: Seq::new(alloc),
    };
    for line in source.split(|b| *b == b'\n') {
        let words = words(alloc, line)?;
        add_line(alloc, &mut program, words.as_slice())?;
    }
    Ok(program)
}

// The fields `f` and methods of a class that follow its name and supertypes: each its letter, its flags,
// its name and its number.
fn add_member(alloc: Global, class: &mut ClassInfo, words: &[&[u8]]) -> Result<(), AllocError> {
    let name = text(alloc, word(words, 2))?;
    let flag = letter(words, 1);
    if letter(words, 0) == b'f' {
        return class.fields.push(FieldInfo {
            id: FieldId(number(words, 3)),
            name,
            descriptor: text(alloc, b"LO;")?,
            is_static: flag == b's',
        });
    }
    class.methods.push(MethodInfo {
        id: MethodId(number(words, 3)),
        name,
        descriptor: text(alloc, b"()V")?,
        is_static: flag == b's',
        is_private: flag == b'p',
        is_abstract: flag == b'a',
    })
}

fn new_class(alloc: Global, words: &[&[u8]]) -> Result<ClassInfo, AllocError> {
    let mut interfaces = Seq::new(alloc);
    if let Some(interface) = some_number(words, 3) {
        interfaces.push(ClassId(interface))?;
    }
    Ok(ClassInfo {
        name: text(alloc, word(words, 1))?,
        super_id: match some_number(words, 2) {
            Some(above) => Some(ClassId(above)),
            None => None,
        },
        interfaces,
        is_interface: letter(words, 0) == b'I',
        is_abstract: letter(words, 0) == b'I',
        fields: Seq::new(alloc),
        methods: Seq::new(alloc),
    })
}

// A class, a line for it and for each of its members; lines are parted by `;`.
fn class(alloc: Global, source: &[u8]) -> Result<ClassInfo, AllocError> {
    let mut lines = source.split(|b| *b == b';');
    let head = match lines.next() {
        Some(line) => words(alloc, line)?,
        None => Vec::new(alloc),
    };
    let mut class = new_class(alloc, head.as_slice())?;
    for line in lines {
        let words = words(alloc, line)?;
        add_member(alloc, &mut class, words.as_slice())?;
    }
    Ok(class)
}

fn hierarchy(rt: &impl Abort, alloc: Global, source: &[u8]) -> Result<Hierarchy, AllocError> {
    let mut classes = Vec::new(alloc);
    for line in source.split(|b| *b == b'\n') {
        classes.push(class(alloc, line)?)?;
    }
    let answer = acyclic(alloc, classes.as_slice())?;
    assert!(rt; answer);
    assert!(rt; classes.len() < 4_294_967_296);
    Hierarchy::new(alloc, classes)
}

fn write_number(alloc: Global, text: &mut Vec<u8>, number: u32) -> Result<(), AllocError> {
    let digits = format!(in alloc; "{number}")?;
    text.extend_from_slice(digits.as_bytes())
}

// A place and its set, where it isn't empty.
fn write_set(
    alloc: Global,
    out: &mut Vec<u8>,
    place: u8,
    numbers: &[u32],
    set: &IdSet,
) -> Result<(), AllocError> {
    if set.is_empty() {
        return Ok(());
    }
    out.push(b' ')?;
    out.push(place)?;
    for number in numbers {
        write_number(alloc, out, *number)?;
        out.push(b'.')?;
    }
    for id in set.ids() {
        out.push(b',')?;
        write_number(alloc, out, *id)?;
    }
    Ok(())
}

// Facts as they are written here: registers `r`, static fields `s`, cells `c`, elements `e`, methods that
// may run `m`, and calls `>`.
fn written(alloc: Global, facts: &Facts) -> Result<Vec<u8>, AllocError> {
    let mut out = Vec::new(alloc);
    for (register, set) in facts.regs.as_slice().iter().enumerate() {
        write_set(alloc, &mut out, b'r', &[(register % 1000) as u32], set)?;
    }
    for (field, set) in facts.statics.as_slice().iter().enumerate() {
        write_set(alloc, &mut out, b's', &[(field % 1000) as u32], set)?;
    }
    for (site, field, set) in facts.cells.as_slice() {
        write_set(alloc, &mut out, b'c', &[site.0, field.0], set)?;
    }
    for (site, set) in facts.elems.as_slice() {
        write_set(alloc, &mut out, b'e', &[site.0], set)?;
    }
    write_set(alloc, &mut out, b'm', &[], &facts.reached)?;
    for (node, method) in facts.calls.as_slice() {
        let mut one = IdSet::new(alloc);
        one.insert(method.0)?;
        write_set(alloc, &mut out, b'>', &[node.0], &one)?;
    }
    Ok(out)
}

fn are_facts(
    rt: &impl Abort,
    alloc: Global,
    classes: &[u8],
    source: &[u8],
    expected: &[u8],
) -> Result<bool, AllocError> {
    let hierarchy = hierarchy(rt, alloc, classes)?;
    let program = program(alloc, source)?;
    match analyse(alloc, &program, &hierarchy)? {
        Analysis::Least(facts) => {
            let text = written(alloc, &facts)?;
            Ok(text.as_slice() == expected)
        }
        Analysis::TooManyPairs => Ok(false),
    }
}

const OBJECTS: &[u8] = b"C O - -";

// Growing arrays whose empty ones share one (a null object): an Activity pushes itself onto one array, and a
// String onto another that a static field keeps. All arrays hold both.
#[test]
fn shared_empty_arrays_hold_all(rt: HostRuntime) -> Result<(), Fail> {
    let classes =
        b"C O - -\nC V 0 -;f s empty 0;f - table 1;m - <init> 0;m - push 1;m s <clinit> 2\nC A 0 -;f s objects 2;m - <init> 3;m s <clinit> 4;m - start 5";
    let source =
        b"P 0\nP 1 2\nP\nP 3\nP\nP 4\nP\nP\nS [LO;\nS V\nS V\nS [LO;\nS O\nS A 2\nH 6\nH 7\n0 g 5 0\n0 w 0 1 5\n1 l 6 1 1\n1 a 7 3\n1 w 1 1 7\n1 l 8 1 1\n1 e 9 6\n1 u 8 9\n1 u 8 2\n2 a 10 0\n2 p 0 10\n4 i 1\n4 n 11 1\n4 x - 0 0 11\n4 p 2 11\n5 n 12 2\n5 x - 0 0 12\n5 v - 1 12 4\n5 i 2\n5 g 13 2\n5 s 14 4\n5 v - 1 13 14\n6 i 2\n6 k 15 2\n6 x - 3 3 15\n7 k 16 2\n7 v - 5 16";
    let expected =
        b" r0.,1,2 r1.,1,2 r2.,4,5 r3.,5 r4.,5 r5.,0 r6.,0,3 r7.,3 r8.,0,3 r9.,4,5 r10.,0 r11.,1 r12.,2 r13.,1 r14.,4 r15.,5 r16.,5 s0.,0 s2.,1 c1.1.,0,3 c2.1.,0,3 e0.,4,5 e3.,4,5 m,0,1,2,3,4,5,6,7 >13.,0 >16.,0 >17.,1 >21.,1 >24.,3 >26.,5";
    assert!(rt; are_facts(&rt, rt.alloc(), classes, source, expected)?);
    Ok(())
}

// An Activity that a static field keeps.
#[test]
fn static_field_keeps_an_activity(rt: HostRuntime) -> Result<(), Fail> {
    let classes = b"C O - -\nC A 0 -;f s kept 0;m - start 0";
    let source = b"P 0\nP\nS A 1\nH 1\n0 p 0 0\n1 k 1 1\n1 v - 0 1";
    let expected = b" r0.,0 r1.,0 s0.,0 m,0,1 >2.,0";
    assert!(rt; are_facts(&rt, rt.alloc(), classes, source, expected)?);
    Ok(())
}

// Each method gets the receivers that take it, and no others; results of both flow back.
#[test]
fn receivers_take_their_methods(rt: HostRuntime) -> Result<(), Fail> {
    let classes = b"C O - -\nC A 0 -;m - get 0\nC B 1 -;m - get 1";
    let source =
        b"P 0\nP 1\nP\nS A\nS B\nH 2\n0 r 0\n1 r 1\n2 n 2 0\n2 n 3 1\n2 m 4 2\n2 m 4 3\n2 v 5 0 4\n2 v 6 1 4";
    let expected = b" r0.,0 r1.,1 r2.,0 r3.,1 r4.,0,1 r5.,0,1 r6.,1 m,0,1,2 >6.,0 >6.,1 >7.,1";
    assert!(rt; are_facts(&rt, rt.alloc(), classes, source, expected)?);
    Ok(())
}

// A call of an interface's method; a class that leaves it abstract takes none.
#[test]
fn interface_calls_take_what_is_written(rt: HostRuntime) -> Result<(), Fail> {
    let classes = b"C O - -\nI R 0 -;m a run 0\nC A 0 1;m - run 1\nC B 0 1;m a run 2";
    let source =
        b"P 0\nP 1\nP 2\nP\nS A\nS B\nS O\nH 3\n1 m 3 1\n2 m 4 2\n3 n 5 0\n3 n 6 1\n3 n 7 2\n3 m 8 5\n3 m 8 6\n3 m 8 7\n3 v - 0 8";
    let expected = b" r1.,0 r3.,0 r5.,0 r6.,1 r7.,2 r8.,0,1,2 m,1,3 >8.,1";
    assert!(rt; are_facts(&rt, rt.alloc(), classes, source, expected)?);
    Ok(())
}

// A method that calls itself with what it was given and a new object.
#[test]
fn recursion_comes_to_an_end(rt: HostRuntime) -> Result<(), Fail> {
    let classes = b"C O - -;m s down 0;m s other 1";
    let source =
        b"P 0\nP 1\nP\nS O\nS O\nH 2\n0 n 2 0\n0 t 3 0 0\n0 t 4 0 2\n0 r 0\n1 n 1 1\n2 n 5 1\n2 t 6 0 5";
    let expected = b" r0.,0,1 r2.,0 r3.,0,1 r4.,0,1 r5.,1 r6.,0,1 m,0,2 >1.,0 >2.,0 >6.,0";
    assert!(rt; are_facts(&rt, rt.alloc(), classes, source, expected)?);
    Ok(())
}

// Casts and stores into arrays let pass what is of the type; arrays of bytes hold no references. A class's
// initialisation runs its superclass's. A field's String constant is there from the start.
#[test]
fn types_and_initialisers_are_kept_to(rt: HostRuntime) -> Result<(), Fail> {
    let classes =
        b"C O - -;f s text 0;m s <clinit> 0\nC A 0 -;m s <clinit> 1\nC B 1 -;m s <clinit> 2";
    let source =
        b"P\nP\nP\nP\nS O\nS A\nS [LA;\nS [B\nH 3\nK 0 0\n3 n 0 0\n3 n 1 1\n3 m 2 0\n3 m 2 1\n3 c 3 2 A\n3 a 4 2\n3 a 5 3\n3 m 6 4\n3 m 6 5\n3 u 6 2\n3 e 7 6\n3 i 1";
    let expected = b" r0.,0 r1.,1 r2.,0,1 r3.,1 r4.,2 r5.,3 r6.,2,3 r7.,1 s0.,0 e2.,1 m,0,1,3";
    assert!(rt; are_facts(&rt, rt.alloc(), classes, source, expected)?);
    assert!(rt; are_facts(&rt, rt.alloc(), OBJECTS, b"P", b"")?);
    Ok(())
}
