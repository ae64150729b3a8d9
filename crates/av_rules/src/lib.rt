//! The sixteen rules of the analysis: labels of objects, what they pass and select, and which facts force which.
#![tactic(auto)]

mod any_classes;
mod app_rules;
mod bounds;
mod flat_type;
mod given;
mod labels;
mod laws;
mod making;
mod selecting;

pub use app_rules::AppRules;
pub use flat_type::FlatType;
pub use laws::{
    closed_sets_know_the_uncaught, closed_sets_meet, least_facts_are_one, worklist_sets_are_least,
};
