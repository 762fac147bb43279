//! Tests over runs: of `feed_run`, and through it, with ample memory, of the public calls of `row_ops`, `head_tail`, `lookup_join`, `agg_by`, `merge_op`, `sort_op`, `operators`, `source_changes`, `row_changes`, `shown_rows`, `tick_table`, `graph_words`, `steal_workers`, `update_graph`, `snapshot_store`, `replay`, `viewport`, `watched_run` and `made_run`.

#![tactic(auto)]

#[cfg(test)]
mod feed_run_calls;
