// What a node asks, at once and of each site of its base.
ghost use Rattle.std.specs.Prelude.{◌≡◌, ◌<◌, ℕ, true, Option, length, slice_get, OnOk};
ghost use Rattle.std.specs.Option.{option_and_then};
ghost use Rattle.th_ir.specs.Calls.{site_target};
ghost use Rattle.th_base.specs.Hierarchy.{is_subclass};
ghost use Rattle.th_ir.specs.Fields.{has_field};
ghost use Rattle.th_ir.specs.Sites.{can_store, is_ref_array, launch_class, site_is};
ghost use Rattle.th_ir.specs.WellFormed.{AreNumbered};
ghost use Rattle.th_ir.specs.declared.program.RegProgram.{RegProgram};
ghost use Rattle.th_points_to.specs.Asked.{Asks, AsksOn, CallAsks, CallsOn, ReceiverGoes};
ghost use Rattle.th_points_to.specs.Found.{Adds, CallsGo, IsLaid, Keeps};
ghost use Rattle.th_points_to.specs.Initialisers.{InitsGo};
ghost use Rattle.th_points_to.specs.Places.{Gives, Includes, IncludesThrough};
ghost use Rattle.th_points_to.specs.Tables.{AreClasses, AreFilters, AreLaunched, AreReturned, AreTables};
ghost use Rattle.th_points_to.specs.declared.place.Place.TheVariants.{Elements, Register};

use crate::flows::{call, give_all, move_all};
use crate::found::{Found, give, include, include_through};
use crate::initialisers::reach_initialisers;
use crate::place::{Layout, Place};
use crate::tables::Tables;
use crate::targets::{has_field, is_ref_array, site_is, site_target, static_target};
use indexmap::IndexSet;
use std::alloc::{AllocError, Global};
use th_base::{ClassId, FieldId, Hierarchy, MethodId, Reg, Seq, SiteId, Text};
use th_ir::{CallKind, Node, RegProgram, Stmt};

// A register has the sites of the launches of a class.
fn pick(
    found: &mut Found,
    alloc: Global,
    layout: Layout,
    program: &RegProgram,
    hierarchy: &Hierarchy,
    launched: &[Seq<u32>],
    dst: Reg,
    class: ClassId,
) -> Result<(), AllocError>
    requires laid { IsLaid layout found.old }
    requires launched { AreLaunched hierarchy.now program.now launched.now }
    ensures { OnOk result (Adds layout program.now found.old found.new
        (λ t. class.0 < length hierarchy.now → (s : ℕ) → launch_class program.now s ≡ Option.Some class.0 → Gives layout t (Register dst) s)) }
{
    let _classes = hierarchy.classes();
    let at = class.0 as usize;
    if at < launched.len() {
        give_all(found, alloc, layout, dst, launched[at].as_slice())?;
        return Ok(());
    }
    Ok(())
}

// What a call without a receiver asks.
fn ask_call(
    found: &mut Found,
    alloc: Global,
    layout: Layout,
    program: &RegProgram,
    hierarchy: &Hierarchy,
    returned: &[Seq<u32>],
    number: u32,
    node: &Node,
    kind: CallKind,
    method: MethodId,
) -> Result<(), AllocError>
    requires laid { IsLaid layout found.old }
    requires returned { AreReturned program.now returned.now }
    requires node { slice_get program.now.nodes number ≡ Option.Some node.now }
    ensures keeps { OnOk result (Keeps layout found.old found.new) }
    ensures adds { AreNumbered hierarchy.now → CallsGo layout program.now found.old
        → OnOk result (Adds layout program.now found.old found.new (λ t. CallAsks hierarchy.now layout program.now t number kind method.0 node.now.stmt)) }
{
    match kind {
        CallKind::Static => match static_target(hierarchy, method) {
            Some(to) => {
                call(found, alloc, layout, program, returned, number, node, to)?;
                Ok(())
            }
            None => Ok(()),
        },
        CallKind::Virtual => Ok(()),
        CallKind::Special(_) => Ok(()),
    }
}

// What a node asks at once.
pub(crate) fn ask(
    found: &mut Found,
    alloc: Global,
    layout: Layout,
    program: &RegProgram,
    hierarchy: &Hierarchy,
    tables: &Tables,
    met: &mut IndexSet<u32>,
    number: u32,
    node: &Node,
) -> Result<(), AllocError>
    requires laid { IsLaid layout found.old }
    requires tables { AreTables hierarchy.now layout program.now found.old.solver.constraints.filters tables.now }
    requires node { slice_get program.now.nodes number ≡ Option.Some node.now }
    ensures keeps { OnOk result (Keeps layout found.old found.new) }
    ensures inits { AreNumbered hierarchy.now → CallsGo layout program.now found.old → InitsGo hierarchy.now layout found.old met.old.keys
        → OnOk result (InitsGo hierarchy.now layout found.new met.new.keys) }
    ensures adds { AreNumbered hierarchy.now → CallsGo layout program.now found.old → InitsGo hierarchy.now layout found.old met.old.keys
        → OnOk result (Adds layout program.now found.old found.new (λ t. Asks hierarchy.now layout program.now t number node.now.stmt)) }
{
    match &node.stmt {
        Stmt::Str(dst, site) => {
            give(found, alloc, layout, Place::Register(*dst), *site)?;
            Ok(())
        }
        Stmt::New(dst, site) => {
            give(found, alloc, layout, Place::Register(*dst), *site)?;
            Ok(())
        }
        Stmt::NewArray(dst, site, _) => {
            give(found, alloc, layout, Place::Register(*dst), *site)?;
            Ok(())
        }
        Stmt::Copy(pairs) => {
            move_all(found, alloc, layout, pairs.as_slice())?;
            Ok(())
        }
        Stmt::GetStatic(dst, field) => {
            include(
                found,
                alloc,
                layout,
                Place::Static(*field),
                Place::Register(*dst),
            )?;
            Ok(())
        }
        Stmt::PutStatic(field, src) => {
            include(
                found,
                alloc,
                layout,
                Place::Register(*src),
                Place::Static(*field),
            )?;
            Ok(())
        }
        Stmt::Call(_, kind, method, _) => {
            let returned = tables.returned.as_slice();
            ask_call(
                found, alloc, layout, program, hierarchy, returned, number, node, *kind, *method,
            )?;
            Ok(())
        }
        Stmt::Init(class) => {
            reach_initialisers(found, alloc, layout, hierarchy, met, *class)?;
            Ok(())
        }
        Stmt::Pick(dst, class) => {
            let launched = tables.launched.as_slice();
            pick(
                found, alloc, layout, program, hierarchy, launched, *dst, *class,
            )?;
            Ok(())
        }
        _ => Ok(()),
    }
}

// What is in one place is in another, where the objects of a site have a field.
fn include_had(
    found: &mut Found,
    alloc: Global,
    layout: Layout,
    program: &RegProgram,
    hierarchy: &Hierarchy,
    classes: &[Option<ClassId>],
    site: SiteId,
    field: FieldId,
    from: Place,
    to: Place,
) -> Result<(), AllocError>
    requires laid { IsLaid layout found.old }
    requires classes { AreClasses hierarchy.now program.now.sites classes.now }
    ensures keeps { OnOk result (Keeps layout found.old found.new) }
    ensures adds { AreNumbered hierarchy.now → OnOk result (Adds layout program.now found.old found.new
        (λ t. has_field hierarchy.now program.now site.0 field.0 ≡ true → Includes layout t from to)) }
{
    if has_field(hierarchy, program, classes, site, field) {
        include(found, alloc, layout, from, to)?;
        return Ok(());
    }
    Ok(())
}

// A register has the elements of the arrays of a site, where they are references.
fn include_elements(
    found: &mut Found,
    alloc: Global,
    layout: Layout,
    program: &RegProgram,
    site: SiteId,
    dst: Reg,
) -> Result<(), AllocError>
    requires { IsLaid layout found.old }
    ensures { OnOk result (Adds layout program.now found.old found.new
        (λ t. is_ref_array program.now site.0 ≡ true → Includes layout t (Elements site) (Register dst))) }
{
    if is_ref_array(program, site) {
        include(
            found,
            alloc,
            layout,
            Place::Elements(site),
            Place::Register(dst),
        )?;
        return Ok(());
    }
    Ok(())
}

// The arrays of a site have what is in a register and may stand in them.
fn store(
    found: &mut Found,
    alloc: Global,
    layout: Layout,
    program: &RegProgram,
    hierarchy: &Hierarchy,
    filters: &[usize],
    site: SiteId,
    src: Reg,
) -> Result<(), AllocError>
    requires laid { IsLaid layout found.old }
    requires filters { AreFilters hierarchy.now program.now found.old.solver.constraints.filters filters.now }
    ensures { OnOk result (Adds layout program.now found.old found.new
        (λ t. is_ref_array program.now site.0 ≡ true → IncludesThrough layout t (can_store hierarchy.now program.now site.0) (Register src) (Elements site))) }
{
    let _classes = hierarchy.classes();
    let at = site.0 as usize;
    if at >= filters.len() {
        return Ok(());
    }
    if is_ref_array(program, site) {
        let from = Place::Register(src);
        include_through(
            found,
            alloc,
            layout,
            from,
            Place::Elements(site),
            filters[at],
        )?;
        return Ok(());
    }
    Ok(())
}

// A register has a site, where it is of a subtype.
fn give_cast(
    found: &mut Found,
    alloc: Global,
    layout: Layout,
    program: &RegProgram,
    hierarchy: &Hierarchy,
    text: &Text,
    site: SiteId,
    dst: Reg,
) -> Result<(), AllocError>
    requires { IsLaid layout found.old }
    ensures { OnOk result (Adds layout program.now found.old found.new
        (λ t. site_is hierarchy.now program.now text.now site.0 ≡ true → Gives layout t (Register dst) site.0)) }
{
    if site_is(hierarchy, program, text, site) {
        give(found, alloc, layout, Place::Register(dst), site)?;
        return Ok(());
    }
    Ok(())
}

// The first parameter of a method has a site.
fn give_receiver(
    found: &mut Found,
    alloc: Global,
    layout: Layout,
    program: &RegProgram,
    to: MethodId,
    site: SiteId,
) -> Result<(), AllocError>
    requires { IsLaid layout found.old }
    ensures { OnOk result (Adds layout program.now found.old found.new (λ t. ReceiverGoes layout program.now t to.0 site.0)) }
{
    match receiver_of(program, to) {
        Some(receiver) => {
            give(found, alloc, layout, Place::Register(receiver), site)?;
            Ok(())
        }
        None => Ok(()),
    }
}

// The first parameter of a method.
fn receiver_of(program: &RegProgram, to: MethodId) -> Option<Reg>
    ensures { result ≡ option_and_then (λ method. slice_get method.params 0) (slice_get program.now.methods to.0) }
{
    let method = program.methods.get(to.0 as usize)?;
    method.params.get(0).copied()
}

// What a call asks of a site of its receiver.
fn call_on(
    found: &mut Found,
    alloc: Global,
    layout: Layout,
    program: &RegProgram,
    hierarchy: &Hierarchy,
    tables: &Tables,
    number: u32,
    node: &Node,
    kind: CallKind,
    method: MethodId,
    site: SiteId,
) -> Result<(), AllocError>
    requires laid { IsLaid layout found.old }
    requires tables { AreTables hierarchy.now layout program.now found.old.solver.constraints.filters tables.now }
    requires node { slice_get program.now.nodes number ≡ Option.Some node.now }
    ensures keeps { OnOk result (Keeps layout found.old found.new) }
    ensures adds { AreNumbered hierarchy.now → CallsGo layout program.now found.old
        → OnOk result (Adds layout program.now found.old found.new
        (λ t. (to : ℕ) → site_target hierarchy.now program.now kind method.0 site.0 ≡ Option.Some to → CallsOn layout program.now t number node.now.stmt to site.0)) }
{
    let classes = tables.classes.as_slice();
    let returned = tables.returned.as_slice();
    match site_target(hierarchy, program, classes, kind, method, site) {
        Some(to) => {
            call(found, alloc, layout, program, returned, number, node, to)?;
            give_receiver(found, alloc, layout, program, to, site)?;
            Ok(())
        }
        None => Ok(()),
    }
}

// What a node asks of a site of its base.
pub(crate) fn ask_on(
    found: &mut Found,
    alloc: Global,
    layout: Layout,
    program: &RegProgram,
    hierarchy: &Hierarchy,
    tables: &Tables,
    number: u32,
    node: &Node,
    site: SiteId,
) -> Result<(), AllocError>
    requires laid { IsLaid layout found.old }
    requires tables { AreTables hierarchy.now layout program.now found.old.solver.constraints.filters tables.now }
    requires node { slice_get program.now.nodes number ≡ Option.Some node.now }
    ensures keeps { OnOk result (Keeps layout found.old found.new) }
    ensures adds { AreNumbered hierarchy.now → CallsGo layout program.now found.old
        → OnOk result (Adds layout program.now found.old found.new (λ t. AsksOn hierarchy.now layout program.now t number node.now.stmt site)) }
{
    match &node.stmt {
        Stmt::GetField(dst, _, field) => {
            let from = Place::Cell(site, *field);
            let to = Place::Register(*dst);
            let classes = tables.classes.as_slice();
            include_had(
                found, alloc, layout, program, hierarchy, classes, site, *field, from, to,
            )?;
            Ok(())
        }
        Stmt::PutField(_, field, src) => {
            let from = Place::Register(*src);
            let to = Place::Cell(site, *field);
            let classes = tables.classes.as_slice();
            include_had(
                found, alloc, layout, program, hierarchy, classes, site, *field, from, to,
            )?;
            Ok(())
        }
        Stmt::GetElem(dst, _, _) => {
            include_elements(found, alloc, layout, program, site, *dst)?;
            Ok(())
        }
        Stmt::PutElem(_, src) => {
            let filters = tables.filters.as_slice();
            store(
                found, alloc, layout, program, hierarchy, filters, site, *src,
            )?;
            Ok(())
        }
        Stmt::Cast(dst, _, text) => {
            give_cast(found, alloc, layout, program, hierarchy, text, site, *dst)?;
            Ok(())
        }
        Stmt::Call(_, kind, method, _) => {
            call_on(
                found, alloc, layout, program, hierarchy, tables, number, node, *kind, *method,
                site,
            )?;
            Ok(())
        }
        _ => Ok(()),
    }
}
