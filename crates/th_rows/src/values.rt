// Values that are copied and compared, and the store of the host.
use std::alloc::{AllocError, Global};
use std::test::Fail;
use th_base::{ArithOp, ClassId, FieldId, MethodId, Relation, Same, Seq, Stack, Text, TryCopy};
use th_outside::{Files, HostFiles, ReadError};
use th_syntax::{
    ClassFile, Code, Constant, Frame, InitStage, Instr, LaunchStage, Launched, Mark, Member,
    MemberRef, Object, Primitive, Refusal, Slot, StackOp, State, Value,
};

fn text(alloc: Global, bytes: &[u8]) -> Result<Text, AllocError> {
    Text::from_slice(alloc, bytes)
}

fn field_ref(alloc: Global) -> Result<MemberRef, AllocError> {
    Ok(MemberRef {
        owner: text(alloc, b"Act")?,
        name: text(alloc, b"last")?,
        descriptor: text(alloc, b"LAct;")?,
    })
}

// An instruction of each kind of operands.
fn some_instrs(alloc: Global) -> Result<Seq<(u32, Instr)>, AllocError> {
    let mut instrs = Seq::new(alloc);
    instrs.push((0, Instr::ALoad(0)))?;
    instrs.push((1, Instr::PutStatic(field_ref(alloc)?)))?;
    instrs.push((4, Instr::Long(-1)))?;
    instrs.push((7, Instr::Str(text(alloc, b"x")?)))?;
    instrs.push((9, Instr::LArith(ArithOp::Add)))?;
    instrs.push((10, Instr::Inc(3, -1)))?;
    instrs.push((13, Instr::IfInts(Relation::Lt, 0)))?;
    instrs.push((16, Instr::Stack(StackOp::DupX1)))?;
    instrs.push((17, Instr::NewArray(Primitive::Long)))?;
    instrs.push((
        19,
        Instr::TableSwitch {
            low: -1,
            targets: Seq::from_slice(alloc, &[0, 13])?,
            other: 0,
        },
    ))?;
    let mut pairs = Seq::new(alloc);
    pairs.push((5, 13))?;
    instrs.push((39, Instr::LookupSwitch { pairs, other: 0 }))?;
    instrs.push((59, Instr::Return))?;
    Ok(instrs)
}

fn one_class(alloc: Global) -> Result<ClassFile, AllocError> {
    let mut fields = Seq::new(alloc);
    fields.push(Member {
        access: 8,
        name: text(alloc, b"last")?,
        descriptor: text(alloc, b"LAct;")?,
        constant: Some(Constant::Str(text(alloc, b"x")?)),
        code: None,
    })?;
    let mut methods = Seq::new(alloc);
    methods.push(Member {
        access: 1,
        name: text(alloc, b"onStop")?,
        descriptor: text(alloc, b"()V")?,
        constant: None,
        code: Some(Code {
            max_stack: 4,
            max_locals: 1,
            instrs: some_instrs(alloc)?,
            handlers: 2,
        }),
    })?;
    Ok(ClassFile {
        major: 52,
        access: 33,
        name: text(alloc, b"Act")?,
        super_name: Some(text(alloc, b"android/app/Activity")?),
        interfaces: Seq::new(alloc),
        fields,
        methods,
    })
}

#[test]
fn class_files_are_copied_and_compared(rt: HostRuntime) -> Result<(), Fail> {
    let class = one_class(rt.alloc())?;
    let mut copy = class.try_copy(rt.alloc())?;
    assert!(rt; class.same(&copy));
    copy.interfaces.push(text(rt.alloc(), b"p/I")?)?;
    assert!(rt; !class.same(&copy));
    Ok(())
}

#[test]
fn refusals_are_copied_and_compared(rt: HostRuntime) -> Result<(), Fail> {
    let refusal = Refusal {
        number: 16,
        class: text(rt.alloc(), b"Act")?,
        member: text(rt.alloc(), b"Act.none:I")?,
        offset: 7,
    };
    let mut copy = refusal.try_copy(rt.alloc())?;
    assert!(rt; refusal.same(&copy));
    copy.offset = 8;
    assert!(rt; !refusal.same(&copy));
    Ok(())
}

// A state with a frame, an object and a mark of each kind.
fn one_state(alloc: Global) -> Result<State, AllocError> {
    let mut fields = Seq::new(alloc);
    fields.push((FieldId(2), Value::Long(-1)))?;
    let mut elements = Seq::new(alloc);
    elements.push(Value::Address(0))?;
    let mut heap = Seq::new(alloc);
    heap.push(Object::Instance {
        class: ClassId(11),
        fields,
    })?;
    heap.push(Object::Array {
        descriptor: text(alloc, b"[LAct;")?,
        elements,
    })?;
    let mut locals = Seq::new(alloc);
    locals.push(Slot::Holds(Value::Null))?;
    let mut stack = Stack::new(alloc);
    stack.push(Slot::Holds(Value::Long(5)))?;
    stack.push(Slot::SecondHalf)?;
    let mut frames = Stack::new(alloc);
    frames.push(Frame::Launch {
        class: ClassId(11),
        stage: LaunchStage::EndLaunch(0),
    })?;
    frames.push(Frame::Init {
        class: ClassId(11),
        stage: InitStage::EndInit,
    })?;
    frames.push(Frame::Code {
        method: MethodId(17),
        offset: 4,
        locals,
        stack,
    })?;
    let mut statics = Seq::new(alloc);
    statics.push(Value::Int(3))?;
    let mut marks = Seq::new(alloc);
    marks.push(Mark::InProgress)?;
    let mut launched = Seq::new(alloc);
    launched.push(Launched {
        object: 0,
        stage: 7,
    })?;
    Ok(State {
        heap,
        statics,
        marks,
        frames,
        launched,
        ended: false,
    })
}

#[test]
fn states_are_copied_and_compared(rt: HostRuntime) -> Result<(), Fail> {
    let state = one_state(rt.alloc())?;
    let mut copy = state.try_copy(rt.alloc())?;
    assert!(rt; state.same(&copy));
    copy.ended = true;
    assert!(rt; !state.same(&copy));
    Ok(())
}

// The host's store reads what is there, and counts what isn't as a failure.
#[test]
fn host_files_are_read(rt: HostRuntime) -> Result<(), Fail> {
    let mut files = HostFiles { rt: &rt, faults: 0 };
    let mut buf = [0; 4];
    assert_eq!(rt; files.read_at("/dev/null", 0, &mut buf), Ok(0));
    assert_eq!(rt; files.faults, 0);
    assert_eq!(rt;
        files.read_at("/dev/null/none", 0, &mut buf),
        Err(ReadError::Failed)
    );
    assert_eq!(rt; files.faults, 1);
    Ok(())
}
