//! The plain data of the engine, and what its words mean.
#![tactic(auto)]

pub mod bounds;
pub mod cells;
pub mod columns;
pub mod feed;
pub mod formula;
pub mod items;
pub mod kinds;
pub mod lawful;
pub mod limits;
pub mod name;
pub mod names;
pub mod operators;
pub mod plan;
pub mod published;
pub mod row_list;
pub mod sources;
pub mod table;
pub mod update;
