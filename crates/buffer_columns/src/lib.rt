// Entries in the columns of a reorder buffer, and bytes in its areas. Every function takes every count and place.
#![tactic(auto)]

pub mod areas;
pub mod columns;
