//! The second step of the canonical form of a query: its from-sets become the greatest within them
//! that meet two rules.
//!
//! A symbol has only sites that its places may hold, and the base of a field or of elements only sites
//! that have the slot and may hold the value there (`th_query/specs/Narrowed.antt`). `narrow` first
//! bounds the sets by registers, static fields and slots, once, and then goes over the fields and
//! elements in rounds until nothing changes. It looks facts up by binary search; `are_sorted` says
//! whether a plan's facts are in order for that.
#![tactic(auto)]

mod narrowing;
mod rounds;
mod rows;
mod table;

pub use narrowing::narrow;
pub use rows::are_sorted;
pub use table::SiteTable;
