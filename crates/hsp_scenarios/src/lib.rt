// What plans show of other times: of other counts, beside an old plan, and after losses. This crate has only
// definitions and laws. They hold of networks with arcs of any type.
#![tactic(auto)]

mod laws;

pub use laws::{
    heavy_weights_show_nearest, joined_plans, less_fits, prices_show_nearest, prices_weigh_moves,
    sets_show_least, short_from, split_plans,
};
