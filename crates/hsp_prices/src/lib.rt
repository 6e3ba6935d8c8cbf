// What prices, sets of servers and certificates by prices show of rows of demand of any number, and what a solved
// network of groups of rows shows of the rows. This crate has only definitions and laws.
#![tactic(auto)]

mod laws;
mod verdict;

pub use laws::{
    classes_show_best, gaps_bound_plans, groups_show_best, groups_show_short, kept_plans_are_best,
    kept_short_sets_are_short, plan_is_shown, prices_bound_plans, servers_show_shortages,
    short_servers_show_none, shortage_is_shown, small_gaps_show_best,
};
pub use verdict::{PriceReason, PriceVerdict};
