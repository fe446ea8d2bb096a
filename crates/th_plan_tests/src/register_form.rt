// Programs in register form and their facts are copied and compared.
use std::alloc::{AllocError, Global};
use std::test::Fail;
use th_base::{
    ArithOp, ClassId, Elem, FieldId, IdSet, MethodId, NarrowOp, NodeId, Reg, Relation, Same, Seq,
    SiteId, Text, TryCopy,
};
use th_ir::{
    Alarm, CallKind, Condition, Edge, Facts, Graph, Method, Mods, Node, Place, Producer,
    RegProgram, Site, Stmt,
};

const A: Reg = Reg(0);

const B: Reg = Reg(1);

const C: Reg = Reg(2);

fn text(alloc: Global, bytes: &[u8]) -> Result<Text, AllocError> {
    Text::from_slice(alloc, bytes)
}

// A condition of each kind, and some that differ in one place.
fn conditions(alloc: Global) -> Result<Seq<Condition>, AllocError> {
    let mut all = Seq::new(alloc);
    all.push(Condition::Ints(Relation::Lt, A, Some(B)))?;
    all.push(Condition::Ints(Relation::Ge, A, Some(B)))?;
    all.push(Condition::Ints(Relation::Lt, A, None))?;
    all.push(Condition::SameRef(A, B))?;
    all.push(Condition::OtherRef(A, B))?;
    all.push(Condition::IsNull(A))?;
    all.push(Condition::NotNull(A))?;
    all.push(Condition::Key(A, 3))?;
    all.push(Condition::Key(A, -3))?;
    all.push(Condition::NoKey(A, Seq::from_slice(alloc, &[3, 4])?))?;
    all.push(Condition::NoKey(A, Seq::from_slice(alloc, &[3])?))?;
    Ok(all)
}

// The statements on ints and on registers alone.
fn plain_statements(alloc: Global, all: &mut Seq<Stmt>) -> Result<(), AllocError> {
    let mut pairs = Seq::new(alloc);
    pairs.push((A, B))?;
    pairs.push((B, A))?;
    all.push(Stmt::Nop)?;
    all.push(Stmt::Const(A, 1))?;
    all.push(Stmt::Null(A))?;
    all.push(Stmt::Str(A, SiteId(0)))?;
    all.push(Stmt::Copy(pairs))?;
    all.push(Stmt::Copy(Seq::new(alloc)))?;
    all.push(Stmt::Arith(A, ArithOp::Add, B, C))?;
    all.push(Stmt::Arith(A, ArithOp::Sub, B, C))?;
    all.push(Stmt::Neg(A, B))?;
    all.push(Stmt::AddConst(A, B, -1))?;
    all.push(Stmt::Narrow(A, NarrowOp::Char, B))?;
    all.push(Stmt::AnyInt(A))?;
    all.push(Stmt::Assume(Condition::IsNull(A)))?;
    all.push(Stmt::Assume(Condition::NotNull(A)))
}

// The statements on fields, objects and arrays.
fn heap_statements(alloc: Global, all: &mut Seq<Stmt>) -> Result<(), AllocError> {
    all.push(Stmt::GetStatic(A, FieldId(0)))?;
    all.push(Stmt::PutStatic(FieldId(0), A))?;
    all.push(Stmt::GetField(A, B, FieldId(1)))?;
    all.push(Stmt::PutField(A, FieldId(1), B))?;
    all.push(Stmt::GetElem(A, B, Elem::Ref))?;
    all.push(Stmt::GetElem(A, B, Elem::Byte))?;
    all.push(Stmt::PutElem(A, B))?;
    all.push(Stmt::Length(A, B))?;
    all.push(Stmt::New(A, SiteId(1)))?;
    all.push(Stmt::NewArray(A, SiteId(2), B))?;
    all.push(Stmt::Cast(A, B, text(alloc, b"Act")?))?;
    all.push(Stmt::InstanceOf(A, B, text(alloc, b"Act")?))?;
    all.push(Stmt::Pick(A, ClassId(11)))?;
    all.push(Stmt::NonNull(A))?;
    all.push(Stmt::Halt)
}

// The statements by which a method is entered and left.
fn call_statements(alloc: Global, all: &mut Seq<Stmt>) -> Result<(), AllocError> {
    let special = CallKind::Special(Some(MethodId(8)));
    let args = Seq::from_slice(alloc, &[A, B])?;
    all.push(Stmt::Call(None, CallKind::Virtual, MethodId(9), args))?;
    let args = Seq::from_slice(alloc, &[A, B])?;
    all.push(Stmt::Call(Some(C), CallKind::Virtual, MethodId(9), args))?;
    let args = Seq::from_slice(alloc, &[A])?;
    all.push(Stmt::Call(None, special, MethodId(8), args))?;
    let args = Seq::from_slice(alloc, &[A])?;
    all.push(Stmt::Call(None, CallKind::Special(None), MethodId(8), args))?;
    let args = Seq::new(alloc);
    all.push(Stmt::Call(None, CallKind::Static, MethodId(8), args))?;
    all.push(Stmt::Init(ClassId(11)))?;
    all.push(Stmt::Return(None))?;
    all.push(Stmt::Return(Some(A)))
}

fn statements(alloc: Global) -> Result<Seq<Stmt>, AllocError> {
    let mut all = Seq::new(alloc);
    plain_statements(alloc, &mut all)?;
    heap_statements(alloc, &mut all)?;
    call_statements(alloc, &mut all)?;
    Ok(all)
}

fn places(alloc: Global) -> Result<Seq<Place>, AllocError> {
    let mut all = Seq::new(alloc);
    all.push(Place::Str(text(alloc, b"x")?))?;
    all.push(Place::Str(text(alloc, b"y")?))?;
    all.push(Place::Launch(ClassId(11)))?;
    all.push(Place::Event)?;
    all.push(Place::Code(MethodId(17), 4))?;
    all.push(Place::Code(MethodId(17), 7))?;
    Ok(all)
}

pub(crate) fn edges(alloc: Global) -> Result<Seq<Edge>, AllocError> {
    let mut all = Seq::new(alloc);
    all.push(Edge::Static(FieldId(0), SiteId(1)))?;
    all.push(Edge::Field(SiteId(0), FieldId(1), SiteId(1)))?;
    all.push(Edge::Field(SiteId(0), FieldId(2), SiteId(1)))?;
    all.push(Edge::Element(SiteId(0), SiteId(1)))?;
    Ok(all)
}

fn set(alloc: Global, members: &[u32]) -> Result<IdSet, AllocError> {
    let mut set = IdSet::new(alloc);
    for member in members {
        set.insert(*member)?;
    }
    Ok(set)
}

pub(crate) fn program(alloc: Global) -> Result<RegProgram, AllocError> {
    let mut nodes = Seq::new(alloc);
    nodes.push(Node {
        method: MethodId(0),
        offset: 0,
        stmt: Stmt::PutStatic(FieldId(0), A),
        next: Seq::from_slice(alloc, &[NodeId(1)])?,
        loop_head: false,
    })?;
    nodes.push(Node {
        method: MethodId(0),
        offset: 3,
        stmt: Stmt::Return(None),
        next: Seq::new(alloc),
        loop_head: false,
    })?;
    let mut methods = Seq::new(alloc);
    methods.push(Method {
        owner: Some(ClassId(0)),
        entry: NodeId(0),
        params: Seq::from_slice(alloc, &[A])?,
        returns: Seq::from_slice(alloc, &[NodeId(1)])?,
    })?;
    let mut sites = Seq::new(alloc);
    sites.push(Site {
        class: text(alloc, b"[I")?,
        place: Place::Code(MethodId(0), 0),
    })?;
    Ok(RegProgram {
        methods,
        nodes,
        sites,
        harness: Seq::from_slice(alloc, &[MethodId(1)])?,
        refs: set(alloc, &[0])?,
        ints: Seq::from_slice(alloc, &[(FieldId(1), -1)])?,
        strings: Seq::from_slice(alloc, &[(FieldId(0), SiteId(0))])?,
    })
}

pub(crate) fn facts(alloc: Global) -> Result<Facts, AllocError> {
    let mut regs = Seq::new(alloc);
    regs.push(set(alloc, &[0, 2])?)?;
    let mut cells = Seq::new(alloc);
    cells.push((SiteId(0), FieldId(1), set(alloc, &[2])?))?;
    let mut elems = Seq::new(alloc);
    elems.push((SiteId(1), set(alloc, &[0])?))?;
    Ok(Facts {
        regs,
        statics: Seq::new(alloc),
        cells,
        elems,
        calls: Seq::from_slice(alloc, &[(NodeId(3), MethodId(9))])?,
        reached: set(alloc, &[0, 9])?,
    })
}

// Of each list the values are all different, and each is equal to its copy.
#[test]
fn values_are_told_apart(rt: HostRuntime) -> Result<(), Fail> {
    let statements = statements(rt.alloc())?;
    for (i, left) in statements.as_slice().iter().enumerate() {
        for (k, right) in statements
            .try_copy(rt.alloc())?
            .as_slice()
            .iter()
            .enumerate()
        {
            assert_eq!(rt; left.same(right), i == k);
        }
    }
    let conditions = conditions(rt.alloc())?;
    for (i, left) in conditions.as_slice().iter().enumerate() {
        for (k, right) in conditions
            .try_copy(rt.alloc())?
            .as_slice()
            .iter()
            .enumerate()
        {
            assert_eq!(rt; left.same(right), i == k);
        }
    }
    let places = places(rt.alloc())?;
    for (i, left) in places.as_slice().iter().enumerate() {
        for (k, right) in places.try_copy(rt.alloc())?.as_slice().iter().enumerate() {
            assert_eq!(rt; left.same(right), i == k);
        }
    }
    let edges = edges(rt.alloc())?;
    for (i, left) in edges.as_slice().iter().enumerate() {
        for (k, right) in edges.try_copy(rt.alloc())?.as_slice().iter().enumerate() {
            assert_eq!(rt; left.same(right), i == k);
        }
    }
    Ok(())
}

#[test]
fn programs_are_copied_and_compared(rt: HostRuntime) -> Result<(), Fail> {
    let program = program(rt.alloc())?;
    let mut copy = program.try_copy(rt.alloc())?;
    assert!(rt; program.same(&copy));
    copy.harness.push(MethodId(2))?;
    assert!(rt; !program.same(&copy));
    Ok(())
}

#[test]
fn facts_are_copied_and_compared(rt: HostRuntime) -> Result<(), Fail> {
    let facts = facts(rt.alloc())?;
    let mut copy = facts.try_copy(rt.alloc())?;
    assert!(rt; facts.same(&copy));
    copy.reached.insert(3)?;
    assert!(rt; !facts.same(&copy));
    let mods = Mods {
        fields: set(rt.alloc(), &[1])?,
        statics: set(rt.alloc(), &[0])?,
        elements: true,
        sites: set(rt.alloc(), &[2])?,
    };
    let mut copy = mods.try_copy(rt.alloc())?;
    assert!(rt; mods.same(&copy));
    copy.elements = false;
    assert!(rt; !mods.same(&copy));
    Ok(())
}

#[test]
fn graphs_are_copied_and_compared(rt: HostRuntime) -> Result<(), Fail> {
    let graph = Graph {
        edges: edges(rt.alloc())?,
    };
    let mut copy = graph.try_copy(rt.alloc())?;
    assert!(rt; graph.same(&copy));
    copy.edges.push(Edge::Element(SiteId(2), SiteId(2)))?;
    assert!(rt; !graph.same(&copy));
    let alarm = Alarm {
        field: FieldId(0),
        class: ClassId(11),
    };
    assert!(rt; alarm.same(&alarm.try_copy(rt.alloc())?));
    let producer = Producer::Node(NodeId(0));
    assert!(rt; producer.same(&producer.try_copy(rt.alloc())?));
    assert!(rt; !producer.same(&Producer::Constant(FieldId(0))));
    Ok(())
}
