// What each site makes, looked up once, and which objects have a slot.
ghost use Rattle.std.specs.Prelude.{◌≡◌, IfOk};
ghost use Rattle.th_ir.specs.Fields.{has_field as site_has_field};
ghost use Rattle.th_ir.specs.Sites.{is_array_text as starts_array, is_ref_array as makes_refs};
ghost use Rattle.th_ir.specs.WellFormed.{AreNumbered};
ghost use Rattle.th_query.specs.Narrowed.{has_slot as site_has_slot};
ghost use Rattle.th_narrow.specs.Made.{IsTableOf, array_told, is_ref_array_text as starts_refs, made_in, made_of as made_of_site};

use std::alloc::{AllocError, Global};
use th_base::{ClassId, FieldId, Hierarchy};
use th_ir::{LENGTH, Plan, Site, class_has};
use th_query::Slot;

/// What a site makes.
#[derive(Clone, Copy, Debug, PartialEq, Eq)]
pub(crate) enum Made {
    /// Objects of a class.
    Object(ClassId),
    /// Arrays of references.
    References,
    /// Arrays of numbers.
    Numbers,
    /// Nothing: its class isn't in the hierarchy.
    Nothing,
}

/// What `narrow` asks of the sites of a plan, looked up once for all queries.
#[derive(Debug, Drop)]
pub struct SiteTable {
    made: Vec<Made>,
}

impl SiteTable {
    /// The table of a plan's sites. It takes a few bytes a site.
    pub fn of(alloc: Global, plan: &Plan) -> Result<SiteTable, AllocError>
        ensures { IfOk result (λ table. IsTableOf plan.now table) }
    {
        let mut made = Vec::new(alloc);
        for site in plan.program.sites.as_slice() {
            made.push(made_of(&plan.hierarchy, site))?;
        }
        Ok(SiteTable { made })
    }

    // What a site makes; nothing past the sites.
    fn made_at(&self, site: u32) -> Made
        ensures { result ≡ made_in self.now.made.items site }
    {
        match self.made.get(site as usize) {
            Some(made) => *made,
            None => Made::Nothing,
        }
    }
}

// What a site makes.
fn made_of(hierarchy: &Hierarchy, site: &Site) -> Made
    ensures { result ≡ made_of_site hierarchy.now site.now }
{
    let name = site.class.as_bytes();
    if is_array_text(name) {
        return array_of(name);
    }
    match hierarchy.find_class(name) {
        Some(class) => Made::Object(class),
        None => Made::Nothing,
    }
}

// The arrays that a descriptor tells.
fn array_of(descriptor: &[u8]) -> Made
    ensures { result ≡ array_told descriptor.now }
{
    if is_ref_array_text(descriptor) {
        Made::References
    } else {
        Made::Numbers
    }
}

// Whether the text is an array descriptor, and not the name of a class.
fn is_array_text(text: &[u8]) -> bool
    ensures { result ≡ starts_array text.now }
{
    match text {
        [first, ..] => *first == b'[',
        [] => false,
    }
}

// Whether the text is the descriptor of an array of references.
fn is_ref_array_text(text: &[u8]) -> bool
    ensures { result ≡ starts_refs text.now }
{
    match text {
        [b'[', b'L' | b'[', ..] => true,
        _ => false,
    }
}

// Whether the objects of a site have the slot.
pub(crate) fn has_slot(plan: &Plan, table: &SiteTable, site: u32, slot: Slot) -> bool
    requires table { IsTableOf plan.now table.now }
    ensures { AreNumbered plan.now.hierarchy → result ≡ site_has_slot plan.now.hierarchy plan.now.program site slot }
{
    match slot {
        Slot::Field(field) => has_field(plan, table, site, field),
        Slot::Elements => is_ref_array(plan, table, site),
    }
}

// Whether the objects of a site have the field.
fn has_field(plan: &Plan, table: &SiteTable, site: u32, field: FieldId) -> bool
    requires table { IsTableOf plan.now table.now }
    ensures { AreNumbered plan.now.hierarchy → result ≡ site_has_field plan.now.hierarchy plan.now.program site field.0 }
{
    match table.made_at(site) {
        Made::Object(class) => field != LENGTH && class_has(&plan.hierarchy, class, field),
        Made::References => field == LENGTH,
        Made::Numbers => field == LENGTH,
        Made::Nothing => false,
    }
}

// Whether a site makes arrays of references.
fn is_ref_array(plan: &Plan, table: &SiteTable, site: u32) -> bool
    requires { IsTableOf plan.now table.now }
    ensures { result ≡ makes_refs plan.now.program site }
{
    match table.made_at(site) {
        Made::References => true,
        Made::Object(_) => false,
        Made::Numbers => false,
        Made::Nothing => false,
    }
}
