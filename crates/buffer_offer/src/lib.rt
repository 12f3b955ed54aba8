// The reorder buffer gathers frames from packets, in time order across the timestamp wrap: the calls new and offer.
#![tactic(auto)]

pub mod calls;
pub mod judging;
