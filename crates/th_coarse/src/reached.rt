// The reachable instructions of a program's class files.
ghost use Rattle.std.specs.Prelude.{◌≡◌, ◌++◌, filter, flat_map, map, IfOk, OnOk};
ghost use Rattle.th_base.specs.IdSet.{has};
ghost use Rattle.th_syntax.specs.Flow.{reached_code};
ghost use Rattle.th_coarse.specs.Coarse.{reached_in, reached_instrs};

use std::alloc::{AllocError, Global};
use th_reach::Reached;
use th_syntax::{ClassFile, Instr, Member};

// The instructions to which paths lead, in the order of classes, methods and offsets.
pub(crate) fn reached_instrs<'a>(
    alloc: Global,
    files: &'a [ClassFile],
) -> Result<Vec<&'a Instr>, AllocError>
    ensures { IfOk result (λ instrs. map (λ i. i.now) instrs.items ≡ reached_instrs files.now) }
{
    let mut instrs = Vec::new(alloc);
    for file in files {
        add_of_methods(alloc, &mut instrs, file.methods.as_slice())?;
    }
    Ok(instrs)
}

// Adds the instructions of methods that are reached.
fn add_of_methods<'a>(
    alloc: Global,
    instrs: &mut Vec<&'a Instr>,
    methods: &'a [Member],
) -> Result<(), AllocError>
    ensures { OnOk result (map (λ i. i.now) instrs.new.items ≡ map (λ i. i.now) instrs.old.items ++ flat_map reached_in methods.now) }
{
    for method in methods {
        add_of_method(alloc, instrs, method)?;
    }
    Ok(())
}

// Adds the instructions of a method that are reached.
fn add_of_method<'a>(
    alloc: Global,
    instrs: &mut Vec<&'a Instr>,
    method: &'a Member,
) -> Result<(), AllocError>
    ensures { OnOk result (map (λ i. i.now) instrs.new.items ≡ map (λ i. i.now) instrs.old.items ++ reached_in method.now) }
{
    match &method.code {
        Some(code) => add_of_code(alloc, instrs, code.instrs.as_slice()),
        None => Ok(()),
    }
}

// Adds those of these instructions that are reached from their start.
fn add_of_code<'a>(
    alloc: Global,
    instrs: &mut Vec<&'a Instr>,
    code: &'a [(u32, Instr)],
) -> Result<(), AllocError>
    ensures { OnOk result (map (λ i. i.now) instrs.new.items ≡ map (λ i. i.now) instrs.old.items ++ map (λ i. i.1) (reached_code code.now)) }
{
    let reached = Reached::new(alloc, code)?;
    add_reached(instrs, &reached, code)
}

// Adds those of these instructions that stand at offsets that are reached.
fn add_reached<'a>(
    instrs: &mut Vec<&'a Instr>,
    reached: &Reached,
    code: &'a [(u32, Instr)],
) -> Result<(), AllocError>
    ensures { OnOk result (map (λ i. i.now) instrs.new.items ≡ map (λ i. i.now) instrs.old.items ++ map (λ i. i.1) (filter (λ i. has reached.now i.0) code.now)) }
{
    for placed in code {
        if reached.contains(placed.0) {
            instrs.push(&placed.1)?;
        }
    }
    Ok(())
}
