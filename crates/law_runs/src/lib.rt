//! Laws of the runs of workloads, by scripts and by the seats of a plant.
#![tactic(auto)]

mod eager;
mod plants;
mod workloads;

pub use eager::{
    closed_no_plan, front_so_far, never_unplanned, next_is_planned, plans_are_own, run_fits,
    scenario_is_plannable, scenario_plans_next,
};
pub use plants::{closed_so_far, closed_whole, fixed_is_sim, no_refusal};
pub use workloads::{releases_are_accepted, room_is_enough, scripts_obey};
