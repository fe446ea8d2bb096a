// Summaries of long chains of methods, each of which calls the next.
use crate::classes::hierarchy_of;
use crate::programs::{add_method, add_node, empty};
use std::alloc::{AllocError, Global};
use th_base::{IdSet, MethodId, NodeId, Reg, Seq, SiteId};
use th_ir::{CallKind, Facts, RegProgram, Stmt};
use th_mod::summaries;

// At how many sites the methods of a chain make objects where they share them.
const SHARED_SITES: u32 = 100;

// How many nodes a method has: a call of the next one, and a New.
const NODES: u32 = 2;

fn no_facts(alloc: Global) -> Facts {
    Facts {
        regs: Seq::new(alloc),
        statics: Seq::new(alloc),
        cells: Seq::new(alloc),
        elems: Seq::new(alloc),
        calls: Seq::new(alloc),
        reached: IdSet::new(alloc),
    }
}

// Adds a method that calls the next one, and makes objects at this site.
fn add_link(
    alloc: Global,
    program: &mut RegProgram,
    facts: &mut Facts,
    method: u32,
    site: u32,
) -> Result<(), AllocError> {
    let next = MethodId(method.wrapping_add(1));
    let call = Stmt::Call(None, CallKind::Static, next, Seq::new(alloc));
    add_method(alloc, program, &[])?;
    add_node(alloc, program, method, call)?;
    add_node(alloc, program, method, Stmt::New(Reg(0), SiteId(site)))?;
    facts.calls.push((NodeId(method.wrapping_mul(NODES)), next))
}

// How many sites all summaries tell.
fn sites_told(alloc: Global, program: &RegProgram, facts: &Facts) -> Result<u64, AllocError> {
    let mut count = 0u64;
    match hierarchy_of(alloc, Vec::new(alloc))? {
        Some(hierarchy) => {
            let mods = summaries(alloc, program, &hierarchy, facts)?;
            for told in mods.as_slice() {
                count = count.wrapping_add(told.sites.len() as u64);
            }
            Ok(count)
        }
        None => Ok(count),
    }
}

// The summaries of a chain of so many methods that share a few sites; counts the sites in them.
pub(crate) fn shared_sites(alloc: Global, size: u32) -> Result<u64, AllocError> {
    let mut program = empty(alloc);
    let mut facts = no_facts(alloc);
    for method in 0..size {
        add_link(
            alloc,
            &mut program,
            &mut facts,
            method,
            method % SHARED_SITES,
        )?;
    }
    sites_told(alloc, &program, &facts)
}

// The same, where each method has a site of its own; the sites descend from callers to callees.
pub(crate) fn own_sites(alloc: Global, size: u32) -> Result<u64, AllocError> {
    let mut program = empty(alloc);
    let mut facts = no_facts(alloc);
    for method in 0..size {
        add_link(
            alloc,
            &mut program,
            &mut facts,
            method,
            size.wrapping_sub(method),
        )?;
    }
    sites_told(alloc, &program, &facts)
}
