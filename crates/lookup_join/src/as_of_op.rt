//! The as-of join: what it keeps, and its step.

ghost use Rattle.std.specs.Prelude.{◌≡◌, ◌+◌, ◌*◌, ◌<◌, ◌≤◌, length, IfOk, OnErr};
ghost use Rattle.std.specs.List.{AllByRecursion};
ghost use Rattle.lookup_join.specs.Matcher.{Stands, matched_ticks, matcher_of, standing};
ghost use Rattle.tick_model.specs.Changes.{change_of};
ghost use Rattle.tick_table.specs.Exact.{IsExact, counted, tick_of};

use crate::lookup::{LookupResult, lookup_step};
use crate::pick::Pick;
use row_groups::NumberedGroups;
use std::alloc::{AllocError, Global};
use std::marker::Model;
use std::sync::ledger::Ledger;
use tick_model::items::Items;
use tick_model::plan::OnPair;
use tick_table::{Change, Steps, TickTable};

/// Puts cells of the latest right row that is not later behind each left row, of the right rows with its key cells. It stands
/// for the rows of both inputs that it saw last.
#[derive(Drop)]
pub struct AsOfOp {
    on: Items<OnPair>,
    at: OnPair,
    take: Items<u32>,
    left_width: u32,
    right_width: u32,
    /// The rows of the left input by their key cells, in order of time.
    left: NumberedGroups,
    /// Those of the right input.
    right: NumberedGroups,
    /// Room for the key cells of a row.
    buffer: Vec<i64>,
}

impl Model for AsOfOp {
    ghost use Rattle.std.specs.Prelude.{◌+◌, ◌≤◌, ◌<◌, length};
    ghost use Rattle.std.specs.List.{AllByRecursion};
    ghost use Rattle.lookup_join.specs.Matcher.{IsMatcher, Matcher};
    ghost use Rattle.row_groups.specs.Members.{groups_of};

    ghost Value = { Matcher };

    ghost view = { λ join. record {
      on = join.on;
      at = join.at;
      take = join.take;
      left_width = join.left_width;
      right_width = join.right_width;
      left = groups_of join.left;
      right = groups_of join.right;
    } };

    ghost invariant = { λ join. IsMatcher join.take join.left_width join.right_width };
}

impl AsOfOp {
    /// An operator that has seen no rows, for inputs of these widths. It takes no memory.
    pub fn new(
        alloc: Global,
        on: Items<OnPair>,
        at: OnPair,
        take: Items<u32>,
        left_width: u32,
        right_width: u32,
    ) -> AsOfOp
        requires few { left_width + length take ≤ 32 }
        requires take { AllByRecursion (λ column. column < right_width) take }
        ensures { result ≡ matcher_of on at take left_width right_width }
    {
        let width = on.len();
        AsOfOp {
            on,
            at,
            take,
            left_width,
            right_width,
            left: NumberedGroups::new(alloc, width),
            right: NumberedGroups::new(alloc, width),
            buffer: Vec::new(alloc),
        }
    }

    /// The operator after the step that the inputs show, and the change of its rows. It must stand for the inputs' rows before
    /// the step; after a refusal, which comes where memory runs out, it is given up, and no more is read than that change may
    /// take.
    pub fn step<L: Ledger>(
        self,
        alloc: Global,
        left: &TickTable,
        right: &TickTable,
        reads: &mut Steps<L>,
    ) -> Result<(AsOfOp, Change), AllocError>
        requires left_exact { IsExact left.now }
        requires right_exact { IsExact right.now }
        requires left_width { left.now.new.width ≡ self.left_width }
        requires right_width { right.now.new.width ≡ self.right_width }
        requires stands { Stands self left.now.old right.now.old }
        ensures stands { IfOk result (λ out. out.0 ≡ standing self left.now.new right.now.new) }
        ensures change { IfOk result (λ out. out.1 ≡ change_of (matched_ticks self.on self.at self.take (tick_of left.now) (tick_of right.now))) }
        ensures reads { IfOk result (λ out. reads.new ≤ reads.old
            + 4 * (left.now.new.width + right.now.new.width + (left.now.new.width + length self.take)) * (counted left.now.update + counted right.now.update + counted out.1.update)) }
        ensures refused { OnErr result (reads.new ≤ reads.old
            + 4 * (left.now.new.width + right.now.new.width + (left.now.new.width + length self.take)) * (counted left.now.update + counted right.now.update + counted (change_of (matched_ticks self.on self.at self.take (tick_of left.now) (tick_of right.now))).update)) }
    {
        let AsOfOp {
            on,
            at,
            take,
            left_width,
            right_width,
            left: mut left_rows,
            right: mut right_rows,
            mut buffer,
        } = self;
        let LookupResult {
            change,
            notes: _,
            came: _,
        } = lookup_step(
            alloc,
            on.as_slice(),
            Pick::Latest(at),
            take.as_slice(),
            &mut left_rows,
            &mut right_rows,
            left,
            right,
            &mut buffer,
            reads,
        )?;
        Ok((
            AsOfOp {
                on,
                at,
                take,
                left_width,
                right_width,
                left: left_rows,
                right: right_rows,
                buffer,
            },
            change,
        ))
    }
}
