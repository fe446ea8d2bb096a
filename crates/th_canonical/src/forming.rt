// The canonical form of a query.
ghost use Rattle.std.specs.Prelude.{◌≡◌, ◌<◌, ◌^◌, length, IfOk};
ghost use Rattle.th_ir.specs.FactSets.{AscendBy, cell_key, elem_key};
ghost use Rattle.th_ir.specs.WellFormed.{AreNumbered};
ghost use Rattle.th_narrow.specs.Made.{IsTableOf};
ghost use Rattle.th_query.specs.Canonical.{IsCanonicalOf};
ghost use Rattle.th_steps.specs.Named.{AreKnown};

use std::alloc::{AllocError, Global};
use th_ir::Plan;
use th_narrow::{SiteTable, narrow};
use th_query::Query;
use th_steps::{limit, number, prune, settle};
use th_unify::unify;

/// The canonical form of a query, by a plan: symbols that stand for one value become one, from-sets are
/// narrowed, what says nothing goes, linear facts are divided, the facts past the limits go, and the
/// symbols that are left are numbered anew. The query that results is met wherever the given one is.
pub fn canonical(
    alloc: Global,
    plan: &Plan,
    table: &SiteTable,
    query: Query,
) -> Result<Query, AllocError>
    requires known { AreKnown query }
    requires few { length query.syms < 2 ^ 31 }
    requires table { IsTableOf plan.now table.now }
    requires cells { AscendBy cell_key plan.now.facts.cells }
    requires elems { AscendBy elem_key plan.now.facts.elems }
    ensures { IfOk result (λ made. AreNumbered plan.now.hierarchy → IsCanonicalOf plan.now query made) }
{
    let unified = unify(alloc, query)?;
    let narrowed = narrow(alloc, plan, table, unified)?;
    let settled = settle(alloc, prune(narrowed))?;
    let limited = limit(alloc, settled)?;
    number(alloc, limited)
}
