//! Tests with ample memory: of the public calls of `column_source`, of the inputs and sinks of `tick_io`, and of `SortOrder` of `sort_op`.

#![tactic(auto)]

#[cfg(test)]
mod columns;
#[cfg(test)]
mod files;
#[cfg(test)]
mod sorted_entries;
