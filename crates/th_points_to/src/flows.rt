// What a call asks, and other lists of inclusions.
ghost use Rattle.std.specs.Prelude.{◌≡◌, ◌≤◌, true, Contains, Option, length, drop, zip, slice_get, OnOk};
ghost use Rattle.std.specs.List.{AllByRecursion};
ghost use Rattle.th_ir.specs.declared.program.RegProgram.{RegProgram};
ghost use Rattle.th_points_to.specs.Asked.{ArgumentsGo, Calls, FlowAll, Goes, ResultGoes, passed};
ghost use Rattle.th_points_to.specs.Found.{Adds, CallsGo, IsLaid, Keeps};
ghost use Rattle.th_points_to.specs.Places.{Gives, Includes};
ghost use Rattle.th_points_to.specs.declared.place.Place.TheVariants.{Register};
ghost use Rattle.th_points_to.specs.Tables.{AreReturned};

use crate::found::{Found, give, include, reach};
use crate::place::{Layout, Place};
use std::alloc::{AllocError, Global};
use th_base::{MethodId, Reg, Seq, SiteId};
use th_ir::{CallKind, Node, RegProgram, Stmt};

// Each target has what its source has.
pub(crate) fn move_all(
    found: &mut Found,
    alloc: Global,
    layout: Layout,
    pairs: &[(Reg, Reg)],
) -> Result<(), AllocError>
    requires { IsLaid layout found.old }
    ensures { OnOk result ((p : RegProgram) → Adds layout p found.old found.new (λ t. AllByRecursion (λ m. Includes layout t (Register m.1) (Register m.0)) pairs.now)) }
{
    for (to, from) in pairs {
        include(
            found,
            alloc,
            layout,
            Place::Register(*from),
            Place::Register(*to),
        )?;
    }
    Ok(())
}

// A register has each of these sites.
pub(crate) fn give_all(
    found: &mut Found,
    alloc: Global,
    layout: Layout,
    to: Reg,
    sites: &[u32],
) -> Result<(), AllocError>
    requires { IsLaid layout found.old }
    ensures { OnOk result ((p : RegProgram) → Adds layout p found.old found.new (λ t. AllByRecursion (λ s. Gives layout t (Register to) s) sites.now)) }
{
    for site in sites {
        give(found, alloc, layout, Place::Register(to), SiteId(*site))?;
    }
    Ok(())
}

// A register has what each of these registers has.
fn take_all(
    found: &mut Found,
    alloc: Global,
    layout: Layout,
    to: Reg,
    sources: &[u32],
) -> Result<(), AllocError>
    requires { IsLaid layout found.old }
    ensures { OnOk result ((p : RegProgram) → Adds layout p found.old found.new (λ t. AllByRecursion (λ r. Includes layout t (Register record { 0 = r }) (Register to)) sources.now)) }
{
    for source in sources {
        include(
            found,
            alloc,
            layout,
            Place::Register(Reg(*source)),
            Place::Register(to),
        )?;
    }
    Ok(())
}

// The length of the shorter list.
fn shorter(args: &[Reg], params: &[Reg]) -> usize
    ensures args { result ≤ length args.now }
    ensures params { result ≤ length params.now }
    ensures pairs { length (zip args.now params.now) ≡ result }
{
    if args.len() < params.len() {
        args.len()
    } else {
        params.len()
    }
}

// Each parameter has what its argument has.
fn flow_all(
    found: &mut Found,
    alloc: Global,
    layout: Layout,
    args: &[Reg],
    params: &[Reg],
) -> Result<(), AllocError>
    requires { IsLaid layout found.old }
    ensures { OnOk result ((p : RegProgram) → Adds layout p found.old found.new (λ t. FlowAll layout t (zip args.now params.now))) }
{
    let count = shorter(args, params);
    for at in 0..count {
        include(
            found,
            alloc,
            layout,
            Place::Register(args[at]),
            Place::Register(params[at]),
        )?;
    }
    Ok(())
}

// The registers that a call passes on as a whole: all but the receiver.
fn passed(kind: CallKind, registers: &[Reg]) -> &[Reg]
    ensures { result.now ≡ passed kind registers.now }
{
    match kind {
        CallKind::Static => registers,
        CallKind::Virtual => behind_first(registers),
        CallKind::Special(_) => behind_first(registers),
    }
}

fn behind_first(registers: &[Reg]) -> &[Reg]
    ensures { result.now ≡ drop 1 registers.now }
{
    match registers {
        [_, rest @ ..] => rest,
        [] => registers,
    }
}

// Arguments flow to the parameters of a method.
fn pass(
    found: &mut Found,
    alloc: Global,
    layout: Layout,
    program: &RegProgram,
    kind: CallKind,
    args: &[Reg],
    to: MethodId,
) -> Result<(), AllocError>
    requires { IsLaid layout found.old }
    ensures { OnOk result (Adds layout program.now found.old found.new (λ t. ArgumentsGo layout program.now t kind args.now to.0)) }
{
    match program.methods.get(to.0 as usize) {
        Some(method) => {
            let params = passed(kind, method.params.as_slice());
            flow_all(found, alloc, layout, passed(kind, args), params)?;
            Ok(())
        }
        None => Ok(()),
    }
}

// What a method returns flows to a result.
fn give_back(
    found: &mut Found,
    alloc: Global,
    layout: Layout,
    program: &RegProgram,
    returned: &[Seq<u32>],
    dst: Option<Reg>,
    to: MethodId,
) -> Result<(), AllocError>
    requires laid { IsLaid layout found.old }
    requires returned { AreReturned program.now returned.now }
    ensures { OnOk result (Adds layout program.now found.old found.new (λ t. ResultGoes layout program.now t dst to.0)) }
{
    match dst {
        Some(dst) => {
            let at = to.0 as usize;
            if at < returned.len() {
                take_all(found, alloc, layout, dst, returned[at].as_slice())?;
                return Ok(());
            }
            Ok(())
        }
        None => Ok(()),
    }
}

// All that a call asks of a method that it may take.
fn go(
    found: &mut Found,
    alloc: Global,
    layout: Layout,
    program: &RegProgram,
    returned: &[Seq<u32>],
    stmt: &Stmt,
    to: MethodId,
) -> Result<(), AllocError>
    requires laid { IsLaid layout found.old }
    requires returned { AreReturned program.now returned.now }
    ensures { OnOk result (Adds layout program.now found.old found.new (λ t. Goes layout program.now t stmt.now to.0)) }
{
    match stmt {
        Stmt::Call(dst, kind, _, args) => {
            reach(found, layout, to)?;
            pass(found, alloc, layout, program, *kind, args.as_slice(), to)?;
            give_back(found, alloc, layout, program, returned, *dst, to)?;
            Ok(())
        }
        _ => Ok(()),
    }
}

// Whether the node is known to call the method.
fn is_called(found: &Found, node: u32, to: MethodId) -> bool
    ensures { result ≡ true → Contains found.now.calls.keys (node, to.0) }
{
    found.calls.contains(&(node, to.0))
}

// A node may call a method.
pub(crate) fn call(
    found: &mut Found,
    alloc: Global,
    layout: Layout,
    program: &RegProgram,
    returned: &[Seq<u32>],
    number: u32,
    node: &Node,
    to: MethodId,
) -> Result<(), AllocError>
    requires laid { IsLaid layout found.old }
    requires returned { AreReturned program.now returned.now }
    requires node { slice_get program.now.nodes number ≡ Option.Some node.now }
    ensures keeps { OnOk result (Keeps layout found.old found.new) }
    ensures adds { CallsGo layout program.now found.old → OnOk result (Adds layout program.now found.old found.new (λ t. Calls layout program.now t number node.now.stmt to.0)) }
{
    if is_called(found, number, to) {
        return Ok(());
    }
    go(found, alloc, layout, program, returned, &node.stmt, to)?;
    found.calls.insert((number, to.0))?;
    Ok(())
}
