//! Reservations before the check: in which order they and the classes count, the alternatives of all names, and which classes break
//! a rule on units of several automata.
#![tactic(auto)]

mod listing;
mod ordering;
mod rules;

pub use listing::expanding::expand_all;
pub use listing::extents::{PastExtents, past_extents};
pub use listing::laws::{no_site_is_within_extents, ordered_names_are_known};
pub use listing::unexpanded::Unexpanded;
pub use listing::unit_place::UnitPlace;
pub use ordering::fault::OrderFault;
pub use ordering::order::{Order, counting_order};
pub use ordering::site::{Site, earlier};
pub use rules::breaking::{BrokenRules, broken_rules};
