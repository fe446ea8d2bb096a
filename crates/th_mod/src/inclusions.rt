// The inclusions between the sets of classes and methods.
ghost use Rattle.std.specs.Prelude.{◌≡◌, ◌<◌, ◌≤◌, ◌++◌, ◌^◌, length, codes, IfOk, OnOk};
ghost use Rattle.th_mod.specs.Systems.{goes, method_copy, class_copy, call_copy, init_copy, superclass_copy, initialiser_copy, call_copies, init_copies, class_copies, copies_of, base_pair, base_pairs};

use crate::effect::{Effect, Part, effect_of, number_of};
use crate::lists::push_some;
use std::alloc::{AllocError, Global};
use th_base::{ClassId, Hierarchy, MethodId, NodeId, Seq, TAKES_NOTHING};
use th_incl::Inclusion;
use th_ir::{Facts, Node, RegProgram};

// The name of class initialisers (Java specification 2.9).
const CLASS_INITIALISER: &str = "<clinit>";

// The number of the one filter, which every number passes.
const EVERYTHING: usize = 0;

// All of one set is in another.
fn goes(from: usize, to: usize) -> Inclusion
    ensures { result ≡ goes from to }
{
    Inclusion {
        from,
        to,
        filter: EVERYTHING,
    }
}

// From one method to another, where both are methods of the program.
fn method_copy(
    classes: usize,
    program: &RegProgram,
    from: MethodId,
    to: MethodId,
) -> Option<Inclusion>
    requires { classes < 2 ^ 32 }
    ensures { result ≡ method_copy classes program.now from.0 to.0 }
{
    let methods = program.methods.len();
    let from = from.0 as usize;
    let to = to.0 as usize;
    if from < methods && to < methods {
        Some(goes(classes + from, classes + to))
    } else {
        None
    }
}

// From a class to a method, where both are there.
fn class_copy(
    classes: usize,
    program: &RegProgram,
    class: ClassId,
    to: MethodId,
) -> Option<Inclusion>
    requires { classes < 2 ^ 32 }
    ensures { result ≡ class_copy classes program.now class.0 to.0 }
{
    let class = class.0 as usize;
    let to = to.0 as usize;
    if class < classes && to < program.methods.len() {
        Some(goes(class, classes + to))
    } else {
        None
    }
}

// From the called method to the caller.
fn call_copy(classes: usize, program: &RegProgram, call: (NodeId, MethodId)) -> Option<Inclusion>
    requires { classes < 2 ^ 32 }
    ensures { result ≡ call_copy classes program.now call }
{
    let node = program.nodes.get(call.0.0 as usize)?;
    match effect_of(&node.stmt) {
        Effect::Calls => method_copy(classes, program, call.1, node.method),
        _ => None,
    }
}

// From the class that a node initialises to its method.
fn init_copy(classes: usize, program: &RegProgram, node: &Node) -> Option<Inclusion>
    requires { classes < 2 ^ 32 }
    ensures { result ≡ init_copy classes program.now node.now }
{
    match effect_of(&node.stmt) {
        Effect::Initialises(class) => class_copy(classes, program, class, node.method),
        _ => None,
    }
}

// From the superclass of a class to the class.
fn superclass_copy(hierarchy: &Hierarchy, class: ClassId) -> Option<Inclusion>
    requires { class.0 < length hierarchy.now }
    ensures { result ≡ superclass_copy hierarchy.now class.0 }
{
    let to = class.0 as usize;
    match hierarchy.classes()[to].super_id {
        Some(superclass) => Some(goes(superclass.0 as usize, to)),
        None => None,
    }
}

// From the initialiser of a class to the class.
fn initialiser_copy(
    hierarchy: &Hierarchy,
    program: &RegProgram,
    class: ClassId,
) -> Option<Inclusion>
    requires { class.0 < length hierarchy.now }
    ensures { result ≡ initialiser_copy hierarchy.now program.now class.0 }
{
    let name = CLASS_INITIALISER.as_bytes();
    let method = hierarchy.declared_method(class, name, TAKES_NOTHING.as_bytes())?;
    let from = method.id.0 as usize;
    if from < program.methods.len() {
        Some(goes(hierarchy.classes().len() + from, class.0 as usize))
    } else {
        None
    }
}

// Adds the inclusions of calls.
fn add_calls(
    copies: &mut Seq<Inclusion>,
    classes: usize,
    program: &RegProgram,
    calls: &[(NodeId, MethodId)],
) -> Result<(), AllocError>
    requires { classes < 2 ^ 32 }
    ensures { OnOk result (copies.new ≡ copies.old ++ call_copies classes program.now calls.now) }
{
    for call in calls {
        push_some(copies, call_copy(classes, program, *call))?;
    }
    Ok(())
}

// Adds the inclusions of nodes that initialise.
fn add_inits(
    copies: &mut Seq<Inclusion>,
    classes: usize,
    program: &RegProgram,
    nodes: &[Node],
) -> Result<(), AllocError>
    requires { classes < 2 ^ 32 }
    ensures { OnOk result (copies.new ≡ copies.old ++ init_copies classes program.now nodes.now) }
{
    for node in nodes {
        push_some(copies, init_copy(classes, program, node))?;
    }
    Ok(())
}

// Adds the inclusions of the first classes, so many.
fn add_classes(
    copies: &mut Seq<Inclusion>,
    hierarchy: &Hierarchy,
    program: &RegProgram,
    count: usize,
) -> Result<(), AllocError>
    requires within { count ≤ length hierarchy.now }
    requires few { count < 2 ^ 32 }
    ensures { OnOk result (copies.new ≡ copies.old ++ class_copies hierarchy.now program.now count) }
{
    for class in 0..count {
        let class = ClassId(class as u32);
        push_some(copies, superclass_copy(hierarchy, class))?;
        push_some(copies, initialiser_copy(hierarchy, program, class))?;
    }
    Ok(())
}

// All inclusions of a program.
pub(crate) fn copies_of(
    alloc: Global,
    program: &RegProgram,
    hierarchy: &Hierarchy,
    facts: &Facts,
) -> Result<Seq<Inclusion>, AllocError>
    ensures { IfOk result (λ copies. copies ≡ copies_of hierarchy.now program.now facts.now) }
{
    let classes = hierarchy.classes().len();
    let mut copies = Seq::new(alloc);
    add_calls(&mut copies, classes, program, facts.calls.as_slice())?;
    add_inits(&mut copies, classes, program, program.nodes.as_slice())?;
    add_classes(&mut copies, hierarchy, program, classes)?;
    Ok(copies)
}

// What a node itself puts into a part of its method's summary.
fn base_pair(classes: usize, program: &RegProgram, part: Part, node: &Node) -> Option<(usize, u32)>
    requires { classes < 2 ^ 32 }
    ensures { result ≡ base_pair classes program.now part node.now }
{
    let number = number_of(effect_of(&node.stmt), part)?;
    let method = node.method.0 as usize;
    if method < program.methods.len() {
        Some((classes + method, number))
    } else {
        None
    }
}

// What the nodes themselves put into a part of the summaries.
pub(crate) fn base_pairs(
    alloc: Global,
    classes: usize,
    program: &RegProgram,
    part: Part,
) -> Result<Seq<(usize, u32)>, AllocError>
    requires { classes < 2 ^ 32 }
    ensures { IfOk result (λ pairs. pairs ≡ base_pairs classes program.now part program.now.nodes) }
{
    let mut pairs = Seq::new(alloc);
    for node in program.nodes.as_slice() {
        push_some(&mut pairs, base_pair(classes, program, part, node))?;
    }
    Ok(pairs)
}
