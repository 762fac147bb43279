//! The columns of a node, made of those of its inputs.

ghost use Rattle.std.specs.Prelude.{◌≡◌, ◌++◌, map, position, unwrap_or, IfOk, OnOk};
ghost use Rattle.std.specs.Str.{bytes_eq};
ghost use Rattle.tick_model.specs.declared.plan.Kind.TheVariants.{Long};
ghost use Rattle.script_lines.specs.Answers.{Gives};
ghost use Rattle.script_reader.specs.Checks.{column_named as column_named_of, all_there as all_there_of, column_at, named_columns, source_column};

use crate::numbers::found;
use script_lines::fault::{LineFault, ScriptKind};
use script_lines::line::{AggColumn, Computed, Declared, Pair};
use script_lines::token::Word;
use std::alloc::{AllocError, Global};
use tick_model::items::Items;
use tick_model::name::Name;
use tick_model::plan::{ColumnSpec, Kind};

/// What gives a new column its name.
pub(crate) trait NewColumn {
    ghost use Rattle.std.specs.Prelude.{◌≡◌, List, ℕ};

    ghost new_name: { Self → List ℕ };

    /// The name of the new column.
    fn new_name(&self) -> &str
        ensures { result.now ≡ new_name self.now };
}

impl<'a> NewColumn for Computed<'a> {
    ghost new_name = { λ computed. computed.name };

    fn new_name(&self) -> &str {
        self.name.as_str()
    }
}

impl<'a> NewColumn for AggColumn<'a> {
    ghost new_name = { λ gathered. gathered.name };

    fn new_name(&self) -> &str {
        self.name.as_str()
    }
}

impl<'a> NewColumn for Pair<'a> {
    ghost new_name = { λ pair. pair.first };

    fn new_name(&self) -> &str {
        self.first.as_str()
    }
}

/// A name of its own.
pub(crate) fn owned(alloc: Global, text: &str) -> Result<Name, AllocError>
    ensures { IfOk result (λ name. name ≡ text.now) }
{
    Ok(Name::of(String::from_str(alloc, text)?))
}

/// The first place of a name among columns.
fn place_of(columns: &[ColumnSpec], name: &str) -> Option<usize>
    ensures { result ≡ position (λ column. bytes_eq name.now column.name) columns.now }
{
    columns
        .iter()
        .position(|column| name == column.name.as_str())
}

/// The place of a column of an input.
pub(crate) fn column_named(columns: &[ColumnSpec], name: &Word) -> Result<u32, LineFault>
    ensures { Gives (λ column. column) result (column_named_of columns.now name.now) }
{
    let place = place_of(columns, name.as_str());
    found(place, ScriptKind::UnknownColumn)
}

fn copied(alloc: Global, column: &ColumnSpec) -> Result<ColumnSpec, AllocError>
    ensures { IfOk result (λ copy. copy ≡ column.now) }
{
    Ok(ColumnSpec {
        name: owned(alloc, column.name.as_str())?,
        kind: column.kind,
    })
}

/// The columns of an input once more.
pub(crate) fn all_copied(
    alloc: Global,
    columns: &[ColumnSpec],
) -> Result<Items<ColumnSpec>, AllocError>
    ensures { IfOk result (λ copies. copies ≡ columns.now) }
{
    let mut copies = Items::new(alloc);
    for column in columns {
        copies.push(copied(alloc, column)?)?;
    }
    Ok(copies)
}

/// A column of an input once more, and a nameless one where there is none.
fn copied_at(alloc: Global, columns: &[ColumnSpec], column: u32) -> Result<ColumnSpec, AllocError>
    ensures { IfOk result (λ copy. copy ≡ column_at columns.now column) }
{
    match columns.get(column as usize) {
        Some(column) => copied(alloc, column),
        None => Ok(ColumnSpec {
            name: Name::of(String::new(alloc)),
            kind: Kind::Long,
        }),
    }
}

/// These columns of an input, in the order in which they are asked for.
pub(crate) fn chosen(
    alloc: Global,
    columns: &[ColumnSpec],
    by: &[u32],
) -> Result<Items<ColumnSpec>, AllocError>
    ensures { IfOk result (λ copies. copies ≡ map (column_at columns.now) by.now) }
{
    let mut copies = Items::new(alloc);
    for column in by {
        copies.push(copied_at(alloc, columns, *column)?)?;
    }
    Ok(copies)
}

fn declared_column(alloc: Global, declared: &Declared) -> Result<ColumnSpec, AllocError>
    ensures { IfOk result (λ column. column ≡ source_column declared.now) }
{
    Ok(ColumnSpec {
        name: owned(alloc, declared.name.as_str())?,
        kind: declared.kind,
    })
}

/// The columns that a source declares.
pub(crate) fn source_columns(
    alloc: Global,
    declared: &[Declared],
) -> Result<Items<ColumnSpec>, AllocError>
    ensures { IfOk result (λ columns. columns ≡ map source_column declared.now) }
{
    let mut columns = Items::new(alloc);
    for column in declared {
        columns.push(declared_column(alloc, column)?)?;
    }
    Ok(columns)
}

/// A new column: a kind that is not there shows a wrong line, and stands for long.
fn new_column(alloc: Global, name: &str, kind: Option<Kind>) -> Result<ColumnSpec, AllocError>
    ensures name { IfOk result (λ column. column.name ≡ name.now) }
    ensures kind { IfOk result (λ column. column.kind ≡ unwrap_or kind Long) }
{
    Ok(ColumnSpec {
        name: owned(alloc, name)?,
        kind: kind.unwrap_or(Kind::Long),
    })
}

/// Puts new columns of these kinds behind the others.
pub(crate) fn push_new<T: NewColumn>(
    alloc: Global,
    columns: &mut Items<ColumnSpec>,
    named: &[T],
    kinds: &[Option<Kind>],
) -> Result<(), AllocError>
    ensures { OnOk result (columns.new ≡ columns.old ++ named_columns (map T.new_name named.now) kinds.now) }
{
    for (column, kind) in named.iter().zip(kinds) {
        let new = new_column(alloc, column.new_name(), *kind)?;
        columns.push(new)?;
    }
    Ok(())
}

/// Whether each column has a kind.
pub(crate) fn all_there(kinds: &[Option<Kind>]) -> bool
    ensures { result ≡ all_there_of kinds.now }
{
    kinds.iter().all(|kind| kind.is_some())
}
