//! The words by which the records of faults tell a kind, a rule or a node's fault.

ghost use Rattle.std.specs.Prelude.{◌≡◌, ◌++◌, IfOk};
ghost use Rattle.feed_run.specs.FaultWords.{node_fields, rule_fields, script_word as script_word_of, text_word as text_word_of, update_fields};

use crate::fields::Fields;
use feed_reader::TextKind;
use script_lines::fault::ScriptKind;
use std::alloc::AllocError;
use tick_model::table::NodeFault;
use tick_model::update::{FeedRule, UpdateFault};

/// Why a line of a script is refused.
pub(crate) fn script_word(kind: ScriptKind) -> &'static str
    ensures { result.now ≡ script_word_of kind }
{
    match kind {
        ScriptKind::NotUtf8 => "not-utf8",
        ScriptKind::TooLong => "too-long",
        ScriptKind::BadLine => "bad-line",
        ScriptKind::UnknownName => "unknown-name",
        ScriptKind::TakenName => "taken-name",
        ScriptKind::UnknownColumn => "unknown-column",
        ScriptKind::TakenColumn => "taken-column",
        ScriptKind::WrongKind => "wrong-kind",
        ScriptKind::NumberRange => "number-range",
        ScriptKind::TooManyNodes => "too-many-nodes",
        ScriptKind::TooManyColumns => "too-many-columns",
        ScriptKind::KeySpace => "key-space",
        ScriptKind::TooWide => "too-wide",
    }
}

/// Why a record of a table file or of a feed is refused.
pub(crate) fn text_word(kind: TextKind) -> &'static str
    ensures { result.now ≡ text_word_of kind }
{
    match kind {
        TextKind::Header => "header",
        TextKind::BadTag => "bad-tag",
        TextKind::FieldCount => "field-count",
        TextKind::BadNumber => "bad-number",
        TextKind::UnknownTable => "unknown-table",
        TextKind::OutOfOrder => "out-of-order",
        TextKind::NotUtf8 => "not-utf8",
        TextKind::Unfinished => "unfinished",
        TextKind::TooLong => "too-long",
    }
}

/// The rule of updates that a block breaks, with its numbers.
fn with_update(fields: Fields, fault: UpdateFault) -> Result<Fields, AllocError>
    ensures { IfOk result (λ told. told ≡ fields ++ update_fields fault) }
{
    match fault {
        UpdateFault::RemovedAbsent { key } => fields.text("removed-absent")?.number(key),
        UpdateFault::ShiftBreaks { first, second } => {
            fields.text("shift-breaks")?.number(first)?.number(second)
        }
        UpdateFault::AddedTaken { key } => fields.text("added-taken")?.number(key),
        UpdateFault::ModifiedAbsent { key } => fields.text("modified-absent")?.number(key),
        UpdateFault::ModifiedAdded { key } => fields.text("modified-added")?.number(key),
        UpdateFault::Memory => Ok(fields),
    }
}

/// The rule that a block breaks, with its numbers.
pub(crate) fn with_rule(fields: Fields, rule: FeedRule) -> Result<Fields, AllocError>
    ensures { IfOk result (λ told. told ≡ fields ++ rule_fields rule) }
{
    match rule {
        FeedRule::Update(fault) => with_update(fields, fault),
        FeedRule::TooManyRows { rows } => fields.text("too-many-rows")?.number(rows),
    }
}

/// Why a node has no table, with its numbers.
pub(crate) fn with_node_fault(fields: Fields, fault: NodeFault) -> Result<Fields, AllocError>
    ensures { IfOk result (λ told. told ≡ fields ++ node_fields fault) }
{
    match fault {
        NodeFault::DuplicateRight {
            left_key,
            first,
            second,
        } => fields
            .text("duplicate-right")?
            .number(left_key)?
            .number(first)?
            .number(second),
        NodeFault::TooManyRows { rows } => fields.text("too-many-rows")?.number(rows),
    }
}
