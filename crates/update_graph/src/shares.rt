//! What a node hands to its dependents.

ghost use Rattle.std.specs.Option.{option_to_list};
ghost use Rattle.std.specs.Prelude.{◌≡◌, ◌++◌, ◌∷◌, [], IfOk, OnOk, option_map, true};
ghost use Rattle.std.specs.List.{AllByRecursion};
ghost use Rattle.update_graph.specs.Stands.{AreHanded, IsHanded, Stays};
ghost use Rattle.update_graph.specs.Tags.{tag};

use graph_words::Tagged;
use smallvec::SmallVec;
use std::alloc::{AllocError, Global};
use std::marker::Model;
use std::snapshot::Snapshot;
use tick_model::feed::Run;
use tick_model::items::Items;
use tick_table::Shared;

/// A node's table at a step, or that it has none. A contract sees the node, the step and the run, which say what the table is.
#[derive(Drop)]
pub struct Share {
    run: Snapshot<Run>,
    node: u32,
    step: u64,
    table: Option<Shared>,
}

impl Model for Share {
    ghost use Rattle.std.specs.Coded.{codes};
    ghost use Rattle.tick_model.specs.contracts.plan.Expr as expr_type;
    ghost use Rattle.tick_model.specs.contracts.plan.Pred as pred_type;
    ghost use Rattle.update_graph.specs.Stands.{IsHanded};
    ghost use Rattle.update_graph.specs.Tags.{Tag};

    ghost Value = { Tag };

    ghost coded = { Prim.hlevel (codes, expr_type.the_row.coded, pred_type.the_row.coded) };

    ghost view = { λ share. record { run = share.run.value; node = share.node; step = share.step } };

    ghost invariant = { λ share. IsHanded share.run.value share.step share.node share.table };
}

impl Tagged for Share {
    ghost run = { λ share. share.run };

    ghost node = { λ share. share.node };

    ghost step = { λ share. share.step };
}

impl Share {
    /// What a node hands on.
    pub(crate) fn new(run: &Run, node: u32, step: u64, table: Option<Shared>) -> Share
        requires { IsHanded run.now step node table }
        ensures { result ≡ tag run.now step node }
    {
        Share {
            run: Snapshot::of(run),
            node,
            step,
            table,
        }
    }

    /// The same for another dependent.
    pub(crate) fn copy(&self, run: &Run) -> Result<Share, AllocError>
        requires { run.now ≡ self.now.run }
        ensures { IfOk result (λ share. share ≡ self.now) }
    {
        let table = match &self.table {
            Some(table) => Some(table.clone()?),
            None => None,
        };
        Ok(Share::new(run, self.node, self.step, table))
    }

    /// Whether the node has a table that the step does not change.
    pub(crate) fn stays(&self) -> bool
        ensures { result ≡ true → Stays self.now.run self.now.step self.now.node }
    {
        match &self.table {
            Some(table) => table.update().is_empty(),
            None => false,
        }
    }

    /// The table that is handed on.
    pub(crate) fn table(&self) -> Option<&Shared>
        ensures { IsHanded self.now.run self.now.step self.now.node (option_map (λ table. table.now) result) }
    {
        match &self.table {
            Some(table) => Some(table),
            None => None,
        }
    }
}

/// What the inputs of a node hand to it, in order. Sixteen, which is as many as a node may have, lie in the list itself, so that it
/// takes no memory. A contract sees a list.
#[derive(Drop)]
pub(crate) struct Shares {
    all: SmallVec<Option<Share>, 16>,
}

impl Model for Shares {
    ghost use Rattle.std.specs.Coded.{codes};
    ghost use Rattle.std.specs.List.{flat_map};
    ghost use Rattle.std.specs.Option.{option_to_list};
    ghost use Rattle.std.specs.Prelude.{List};
    ghost use Rattle.tick_model.specs.contracts.plan.Expr as expr_type;
    ghost use Rattle.tick_model.specs.contracts.plan.Pred as pred_type;
    ghost use Rattle.update_graph.specs.Tags.{Tag};

    ghost Value = { List Tag };

    ghost coded = { Prim.hlevel (codes, expr_type.the_row.coded, pred_type.the_row.coded) };

    ghost view = { λ shares. flat_map option_to_list shares.all.items };
}

impl Shares {
    /// The list of none.
    pub(crate) fn new(alloc: Global) -> Shares
        ensures { result ≡ [] }
    {
        Shares {
            all: SmallVec::new(alloc),
        }
    }

    /// The same shares.
    pub(crate) fn of(alloc: Global, shares: Items<Share>) -> Result<Shares, AllocError>
        ensures { IfOk result (λ all. all ≡ shares) }
    {
        let mut all = Shares::new(alloc);
        for share in shares.into_vec() {
            all.push(share)?;
        }
        Ok(all)
    }

    /// Puts one at the end.
    pub(crate) fn push(&mut self, share: Share) -> Result<(), AllocError>
        ensures { OnOk result (self.new ≡ self.old ++ share ∷ []) }
    {
        self.all.push(Some(share))?;
        Ok(())
    }

    /// Whether each of the nodes has a table that the step does not change.
    pub(crate) fn all_stay(&self) -> bool
        ensures { result ≡ true → AllByRecursion (λ share. Stays share.run share.step share.node) self.now }
    {
        let shares = self.all.as_slice();
        for share in shares {
            if !may_stay(share) {
                return false;
            }
        }
        true
    }

    /// The tables that nodes hand on, or `None` where one of them has none.
    pub(crate) fn tables(&self, alloc: Global) -> Result<Option<Vec<Shared>>, AllocError>
        ensures { IfOk result (λ handed. AreHanded self.now (option_map (λ all. all.items) handed)) }
    {
        let mut tables = Vec::with_capacity(alloc, self.all.len())?;
        let shares = self.all.as_slice();
        for share in shares {
            if let Some(share) = share {
                match share.table() {
                    Some(table) => tables.push(table.clone()?)?,
                    None => return Ok(None),
                }
            }
        }
        Ok(Some(tables))
    }
}

/// Whether a place has no share of a node whose table the step changes, or of one that has none.
fn may_stay(share: &Option<Share>) -> bool
    ensures { result ≡ true → AllByRecursion (λ share. Stays share.run share.step share.node) (option_to_list share.now) }
{
    match share {
        Some(share) => share.stays(),
        None => true,
    }
}
