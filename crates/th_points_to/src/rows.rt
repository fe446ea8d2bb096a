// Rows of numbers, each found by a number.
ghost use Rattle.std.specs.Prelude.{◌≡◌, ◌<◌, ◌≤◌, ◌^◌, [], length, replicate, option_to_list, Option, IfOk, OnOk};
ghost use Rattle.std.specs.Option.{option_map};
ghost use Rattle.th_points_to.specs.Asked.{base_of};
ghost use Rattle.th_points_to.specs.Rows.{AreRows, based, launched_by, pairs_from, returned_by, standing, with_pair};

use std::alloc::{AllocError, Global};
use th_base::{Elem, Reg, Seq};
use th_ir::{CallKind, Node, Place, Site, Stmt};

// So many empty rows.
fn empty_rows(alloc: Global, count: usize) -> Result<Vec<Seq<u32>>, AllocError>
    ensures { IfOk result (λ rows. rows.items ≡ replicate count []) }
{
    let mut rows = Vec::new(alloc);
    for _ in 0..count {
        rows.push(Seq::new(alloc))?;
    }
    Ok(rows)
}

// Puts a number at the end of a row, where there is one.
fn put(rows: &mut Vec<Seq<u32>>, pair: Option<(u32, u32)>) -> Result<(), AllocError>
    ensures { OnOk result (rows.new.items ≡ with_pair rows.old.items pair) }
{
    match pair {
        Some((row, number)) => {
            let row = row as usize;
            if row < rows.len() {
                rows[row].push(number)?;
                return Ok(());
            }
            Ok(())
        }
        None => Ok(()),
    }
}

// The register whose sites a node asks of.
pub(crate) fn base_of(stmt: &Stmt) -> Option<Reg>
    ensures { result ≡ base_of stmt.now }
{
    match stmt {
        Stmt::GetField(_, base, _) => Some(*base),
        Stmt::PutField(base, _, _) => Some(*base),
        Stmt::GetElem(_, array, Elem::Ref) => Some(*array),
        Stmt::PutElem(array, _) => Some(*array),
        Stmt::Cast(_, src, _) => Some(*src),
        Stmt::Call(_, CallKind::Virtual, _, args) => args.get(0).copied(),
        Stmt::Call(_, CallKind::Special(_), _, args) => args.get(0).copied(),
        _ => None,
    }
}

// The method of a node, with the node.
fn standing(number: u32, node: &Node) -> Option<(u32, u32)>
    ensures { result ≡ standing number node.now }
{
    Some((node.method.0, number))
}

// The base of a node, with the node.
fn based(number: u32, node: &Node) -> Option<(u32, u32)>
    ensures { result ≡ based number node.now }
{
    match base_of(&node.stmt) {
        Some(base) => Some((base.0, number)),
        None => None,
    }
}

// The method of a node with the register that it returns.
fn returned_by(node: &Node) -> Option<(u32, u32)>
    ensures { result ≡ returned_by 0 node.now }
{
    match &node.stmt {
        Stmt::Return(Some(src)) => Some((node.method.0, src.0)),
        _ => None,
    }
}

// The class whose launches make the objects of a site, with the site.
fn launched_by(number: u32, site: &Site) -> Option<(u32, u32)>
    ensures { result ≡ launched_by number site.now }
{
    match &site.place {
        Place::Launch(class) => Some((class.0, number)),
        _ => None,
    }
}

// The nodes of each method.
pub(crate) fn nodes_by_method(
    alloc: Global,
    count: usize,
    nodes: &[Node],
) -> Result<Vec<Seq<u32>>, AllocError>
    requires { length nodes.now ≤ 2 ^ 32 }
    ensures { IfOk result (λ rows. AreRows count (pairs_from standing 0 nodes.now) rows.items) }
{
    let mut rows = empty_rows(alloc, count)?;
    for (at, node) in nodes.iter().enumerate() {
        put(&mut rows, standing(at as u32, node))?;
    }
    Ok(rows)
}

// The nodes whose base is each register.
pub(crate) fn nodes_by_base(
    alloc: Global,
    count: usize,
    nodes: &[Node],
) -> Result<Vec<Seq<u32>>, AllocError>
    requires { length nodes.now ≤ 2 ^ 32 }
    ensures { IfOk result (λ rows. AreRows count (pairs_from based 0 nodes.now) rows.items) }
{
    let mut rows = empty_rows(alloc, count)?;
    for (at, node) in nodes.iter().enumerate() {
        put(&mut rows, based(at as u32, node))?;
    }
    Ok(rows)
}

// The registers that each method returns.
pub(crate) fn returned_by_method(
    alloc: Global,
    count: usize,
    nodes: &[Node],
) -> Result<Vec<Seq<u32>>, AllocError>
    ensures { IfOk result (λ rows. AreRows count (pairs_from returned_by 0 nodes.now) rows.items) }
{
    let mut rows = empty_rows(alloc, count)?;
    for node in nodes {
        put(&mut rows, returned_by(node))?;
    }
    Ok(rows)
}

// The sites of the launches of each class.
pub(crate) fn launched_by_class(
    alloc: Global,
    count: usize,
    sites: &[Site],
) -> Result<Vec<Seq<u32>>, AllocError>
    requires { length sites.now ≤ 2 ^ 32 }
    ensures { IfOk result (λ rows. AreRows count (pairs_from launched_by 0 sites.now) rows.items) }
{
    let mut rows = empty_rows(alloc, count)?;
    for (at, site) in sites.iter().enumerate() {
        put(&mut rows, launched_by(at as u32, site))?;
    }
    Ok(rows)
}
