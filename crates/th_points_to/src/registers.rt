// How many registers a program has.
ghost use Rattle.std.specs.Prelude.{◌≡◌, ◌≤◌, ◌+◌, ◌^◌, [], ◌∷◌, map, IfOk};
ghost use Rattle.std.specs.List.{flat_map};
ghost use Rattle.th_ir.specs.Program.{greater_of, register_count, registers_asked, registers_of, registers_read, registers_set};
ghost use Rattle.th_points_to.specs.Registers.{IsAbove};

use std::alloc::{AllocError, Global};
use th_base::Reg;
use th_ir::{Condition, Method, Node, RegProgram, Stmt};

fn one(alloc: Global, register: Reg) -> Result<Vec<Reg>, AllocError>
    ensures { IfOk result (λ registers. registers.items ≡ register ∷ []) }
{
    let mut registers = Vec::new(alloc);
    registers.push(register)?;
    Ok(registers)
}

fn two(alloc: Global, first: Reg, second: Reg) -> Result<Vec<Reg>, AllocError>
    ensures { IfOk result (λ registers. registers.items ≡ first ∷ second ∷ []) }
{
    let mut registers = Vec::new(alloc);
    registers.push(first)?;
    registers.push(second)?;
    Ok(registers)
}

// The registers that a condition asks.
fn registers_asked(alloc: Global, condition: &Condition) -> Result<Vec<Reg>, AllocError>
    ensures { IfOk result (λ registers. registers.items ≡ registers_asked condition.now) }
{
    match condition {
        Condition::Ints(_, a, Some(b)) => two(alloc, *a, *b),
        Condition::Ints(_, a, None) => one(alloc, *a),
        Condition::SameRef(a, b) => two(alloc, *a, *b),
        Condition::OtherRef(a, b) => two(alloc, *a, *b),
        Condition::IsNull(a) => one(alloc, *a),
        Condition::NotNull(a) => one(alloc, *a),
        Condition::Key(a, _) => one(alloc, *a),
        Condition::NoKey(a, _) => one(alloc, *a),
    }
}

// The targets of moves.
fn targets(alloc: Global, pairs: &[(Reg, Reg)]) -> Result<Vec<Reg>, AllocError>
    ensures { IfOk result (λ registers. registers.items ≡ map (λ m. m.0) pairs.now) }
{
    pairs.iter().map(|pair| pair.0).collect(alloc)
}

// The sources of moves.
fn sources(alloc: Global, pairs: &[(Reg, Reg)]) -> Result<Vec<Reg>, AllocError>
    ensures { IfOk result (λ registers. registers.items ≡ map (λ m. m.1) pairs.now) }
{
    pairs.iter().map(|pair| pair.1).collect(alloc)
}

// The registers that a statement sets.
fn registers_set(alloc: Global, stmt: &Stmt) -> Result<Vec<Reg>, AllocError>
    ensures { IfOk result (λ registers. registers.items ≡ registers_set stmt.now) }
{
    match stmt {
        Stmt::Nop => Ok(Vec::new(alloc)),
        Stmt::Const(dst, _) => one(alloc, *dst),
        Stmt::Null(dst) => one(alloc, *dst),
        Stmt::Str(dst, _) => one(alloc, *dst),
        Stmt::Copy(pairs) => targets(alloc, pairs.as_slice()),
        Stmt::Arith(dst, _, _, _) => one(alloc, *dst),
        Stmt::Neg(dst, _) => one(alloc, *dst),
        Stmt::AddConst(dst, _, _) => one(alloc, *dst),
        Stmt::Narrow(dst, _, _) => one(alloc, *dst),
        Stmt::AnyInt(dst) => one(alloc, *dst),
        Stmt::Assume(_) => Ok(Vec::new(alloc)),
        Stmt::GetStatic(dst, _) => one(alloc, *dst),
        Stmt::PutStatic(_, _) => Ok(Vec::new(alloc)),
        Stmt::GetField(dst, _, _) => one(alloc, *dst),
        Stmt::PutField(_, _, _) => Ok(Vec::new(alloc)),
        Stmt::GetElem(dst, _, _) => one(alloc, *dst),
        Stmt::PutElem(_, _) => Ok(Vec::new(alloc)),
        Stmt::Length(dst, _) => one(alloc, *dst),
        Stmt::New(dst, _) => one(alloc, *dst),
        Stmt::NewArray(dst, _, _) => one(alloc, *dst),
        Stmt::Cast(dst, _, _) => one(alloc, *dst),
        Stmt::InstanceOf(dst, _, _) => one(alloc, *dst),
        Stmt::Call(Some(dst), _, _, _) => one(alloc, *dst),
        Stmt::Call(None, _, _, _) => Ok(Vec::new(alloc)),
        Stmt::Init(_) => Ok(Vec::new(alloc)),
        Stmt::Return(_) => Ok(Vec::new(alloc)),
        Stmt::Pick(dst, _) => one(alloc, *dst),
        Stmt::NonNull(_) => Ok(Vec::new(alloc)),
        Stmt::Halt => Ok(Vec::new(alloc)),
    }
}

// The registers that a statement reads.
fn registers_read(alloc: Global, stmt: &Stmt) -> Result<Vec<Reg>, AllocError>
    ensures { IfOk result (λ registers. registers.items ≡ registers_read stmt.now) }
{
    match stmt {
        Stmt::Nop => Ok(Vec::new(alloc)),
        Stmt::Const(_, _) => Ok(Vec::new(alloc)),
        Stmt::Null(_) => Ok(Vec::new(alloc)),
        Stmt::Str(_, _) => Ok(Vec::new(alloc)),
        Stmt::Copy(pairs) => sources(alloc, pairs.as_slice()),
        Stmt::Arith(_, _, a, b) => two(alloc, *a, *b),
        Stmt::Neg(_, a) => one(alloc, *a),
        Stmt::AddConst(_, a, _) => one(alloc, *a),
        Stmt::Narrow(_, _, a) => one(alloc, *a),
        Stmt::AnyInt(_) => Ok(Vec::new(alloc)),
        Stmt::Assume(condition) => registers_asked(alloc, condition),
        Stmt::GetStatic(_, _) => Ok(Vec::new(alloc)),
        Stmt::PutStatic(_, src) => one(alloc, *src),
        Stmt::GetField(_, base, _) => one(alloc, *base),
        Stmt::PutField(base, _, src) => two(alloc, *base, *src),
        Stmt::GetElem(_, array, _) => one(alloc, *array),
        Stmt::PutElem(array, src) => two(alloc, *array, *src),
        Stmt::Length(_, array) => one(alloc, *array),
        Stmt::New(_, _) => Ok(Vec::new(alloc)),
        Stmt::NewArray(_, _, count) => one(alloc, *count),
        Stmt::Cast(_, src, _) => one(alloc, *src),
        Stmt::InstanceOf(_, src, _) => one(alloc, *src),
        Stmt::Call(_, _, _, args) => args.as_slice().to_vec(alloc),
        Stmt::Init(_) => Ok(Vec::new(alloc)),
        Stmt::Return(Some(src)) => one(alloc, *src),
        Stmt::Return(None) => Ok(Vec::new(alloc)),
        Stmt::Pick(_, _) => Ok(Vec::new(alloc)),
        Stmt::NonNull(src) => one(alloc, *src),
        Stmt::Halt => Ok(Vec::new(alloc)),
    }
}

// One more than a number, and at least a count.
fn above(count: usize, id: u32) -> usize
    requires { count ≤ 2 ^ 32 }
    ensures few { result ≤ 2 ^ 32 }
    ensures above { result ≡ greater_of count (id + 1) }
{
    let next = id as usize + 1;
    if count < next { next } else { count }
}

// One more than the greatest of these numbers, and at least a count.
fn above_ids(count: usize, ids: &[u32]) -> usize
    requires { count ≤ 2 ^ 32 }
    ensures few { result ≤ 2 ^ 32 }
    ensures above { IsAbove count ids.now result }
{
    let mut most = count;
    for id in ids {
        most = above(most, *id);
    }
    most
}

// The same, of registers.
fn above_registers(count: usize, registers: &[Reg]) -> usize
    requires { count ≤ 2 ^ 32 }
    ensures few { result ≤ 2 ^ 32 }
    ensures above { IsAbove count (map (λ r. r.0) registers.now) result }
{
    let mut most = count;
    for register in registers {
        most = above(most, register.0);
    }
    most
}

// The same, of the parameters of methods.
fn above_params(count: usize, methods: &[Method]) -> usize
    requires { count ≤ 2 ^ 32 }
    ensures few { result ≤ 2 ^ 32 }
    ensures above { IsAbove count (map (λ r. r.0) (flat_map (λ m. m.params) methods.now)) result }
{
    let mut most = count;
    for method in methods {
        most = above_registers(most, method.params.as_slice());
    }
    most
}

// The same, of the registers of nodes.
fn above_nodes(alloc: Global, count: usize, nodes: &[Node]) -> Result<usize, AllocError>
    requires { count ≤ 2 ^ 32 }
    ensures few { IfOk result (λ most. most ≤ 2 ^ 32) }
    ensures above { IfOk result (λ most. IsAbove count (map (λ r. r.0) (flat_map registers_of nodes.now)) most) }
{
    let mut most = count;
    for node in nodes {
        let set = registers_set(alloc, &node.stmt)?;
        let read = registers_read(alloc, &node.stmt)?;
        let with_set = above_registers(most, set.as_slice());
        most = above_registers(with_set, read.as_slice());
    }
    Ok(most)
}

// How many registers the program has.
pub(crate) fn register_count(alloc: Global, program: &RegProgram) -> Result<usize, AllocError>
    ensures few { IfOk result (λ count. count ≤ 2 ^ 32) }
    ensures count { IfOk result (λ count. count ≡ register_count program.now) }
{
    let count = above_ids(0, program.refs.ids());
    let count = above_params(count, program.methods.as_slice());
    let count = above_nodes(alloc, count, program.nodes.as_slice())?;
    Ok(count)
}
