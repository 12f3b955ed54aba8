// Tables of contents: entries and tables, over the formats.
#![tactic(auto)]

pub mod entries;
