// What the methods of the harness do, as the program tells it.
ghost use Rattle.std.specs.Prelude.{◌≡◌, ◌↔◌, List, Some, None, map, false};
ghost use Rattle.th_base.specs.declared.class.ClassInfo.{ClassInfo};
ghost use Rattle.th_base.specs.Hierarchy.{first_some};
ghost use Rattle.th_ir.specs.HarnessKinds.{IsHarnessKind, called_by, handler_of, kind_from, kind_found};
ghost use Rattle.th_ir.specs.Program.{is_harness};
ghost use Rattle.th_ir.specs.WellFormed.{IsWellFormed};

use crate::{Node, RegProgram, Stmt};
use std::alloc::{AllocError, Global};
use th_base::{ClassId, MethodId, Same, TryCopy};

/// What a method of the harness does.
#[derive(Clone, Copy, Debug, PartialEq, Eq)]
pub enum HarnessKind {
    /// It launches the class.
    Launch(ClassId),
    /// It calls a handler, by its place among the handlers, on an object of the class.
    Handler(ClassId, u8),
}

impl TryCopy for HarnessKind {
    fn try_copy(&self, _alloc: Global) -> Result<HarnessKind, AllocError> {
        Ok(*self)
    }
}

impl Same for HarnessKind {
    fn same(&self, other: &HarnessKind) -> bool {
        *self == *other
    }
}

// The number of the method of `android/app/Activity` for the first handler. Those for the others
// follow in order.
const FIRST_HANDLER: u32 = 9;

// How many handlers there are.
const HANDLER_COUNT: u32 = 8;

// The method that a node calls.
fn called(node: &Node) -> Option<MethodId>
    ensures { result ≡ called_by node.now }
{
    match &node.stmt {
        Stmt::Call(_, _, method, _) => Some(*method),
        _ => None,
    }
}

// The method that the first call calls.
fn first_called(nodes: &[Node]) -> Option<MethodId>
    ensures { result ≡ first_some called_by nodes.now }
{
    for node in nodes {
        let method = called(node);
        if method.is_some() {
            return method;
        }
    }
    None
}

// The place of the handler for which Activity has this method.
fn handler_place(method: MethodId) -> Option<u8>
    ensures { result ≡ handler_of method }
{
    if method.0 < FIRST_HANDLER || method.0 - FIRST_HANDLER >= HANDLER_COUNT {
        return None;
    }
    Some((method.0 - FIRST_HANDLER) as u8)
}

// What a method of the harness with these nodes from its entry on does.
fn kind_at_entry(nodes: &[Node]) -> Option<HarnessKind>
    ensures { result ≡ kind_from nodes.now }
{
    match nodes {
        [] => None,
        [first, rest @ ..] => {
            if let Stmt::Init(class) = &first.stmt {
                return Some(HarnessKind::Launch(*class));
            }
            if let Stmt::Pick(_, class) = &first.stmt {
                let called = first_called(rest)?;
                let place = handler_place(called)?;
                return Some(HarnessKind::Handler(*class, place));
            }
            None
        }
    }
}

// The same of a method by its number; `None` where a class declares it.
fn kind_of_number(program: &RegProgram, method: MethodId) -> Option<HarnessKind>
    ensures { result ≡ kind_found program.now method.0 }
{
    let found = program.methods.get(method.0 as usize)?;
    if found.owner.is_some() {
        return None;
    }
    let nodes = program.nodes.as_slice();
    let entry = found.entry.0 as usize;
    if entry >= nodes.len() {
        return None;
    }
    kind_at_entry(&nodes[entry..])
}

/// What a method of the harness does. Over a well-formed program the answer is exact.
pub fn harness_kind(program: &RegProgram, method: MethodId) -> Option<HarnessKind>
    ensures exact { (h : List ClassInfo) (kind : HarnessKind) → IsWellFormed h program.now → (result ≡ Some kind) ↔ IsHarnessKind h program.now method.0 kind }
    ensures none { (h : List ClassInfo) → IsWellFormed h program.now → (result ≡ None) ↔ (is_harness program.now method.0 ≡ false) }
{
    kind_of_number(program, method)
}
