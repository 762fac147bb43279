//! `agg`: one row for each group of rows with equal key cells, under the key of the group's first row.
//!
//! The operator keeps the rows of its input by their groups (`row_groups`), and for each aggregate what answers it without a
//! walk (`running`): of the cells of each group, by the group's number (`by_number`), their sum (`sums`) or themselves with the
//! greatest or the least at hand (`values`).
//! What a step touches are the groups of the rows that come, go or are modified (`moving`), by their key cells before and now.
//! The groups that rows leave are found once, by their numbers. Each touched group is noted once, by its number (`touched`), which
//! gives its first row before and now, by which its row is found (`firsts`). Its row before is noted (`notes`), from the table
//! of the operator's rows, before the indexes are brought on (`kept`). A group that no row touches is not looked at; only its
//! key moves with its first row. `AggOp` keeps its rows too; `Aggregation` is it without them, for a caller that has a table of
//! these rows.
#![tactic(auto)]

mod agg_op;
mod aggregation;
mod by_number;
mod firsts;
mod in_plan;
mod kept;
mod moving;
mod notes;
mod rows;
mod running;
mod staying;
mod sums;
mod touched;
mod values;

pub use agg_op::AggOp;
pub use aggregation::Aggregation;
