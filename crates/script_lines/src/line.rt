//! What a line says by itself, in names and texts.

use crate::making::Making;
use crate::token::Word;
use tick_model::items::Items;
use tick_model::plan::{Comparison, Kind};

/// A formula over named columns.
#[derive(Drop)]
pub enum Formula<'a> {
    Column(Word<'a>),
    Number(i64),
    Text(Word<'a>),
    Null,
    Neg(Box<Formula<'a>>),
    Add(Box<Formula<'a>>, Box<Formula<'a>>),
    Sub(Box<Formula<'a>>, Box<Formula<'a>>),
    Mul(Box<Formula<'a>>, Box<Formula<'a>>),
}

/// A test over named columns.
#[derive(Drop)]
pub enum Test<'a> {
    Compare(Comparison, Formula<'a>, Formula<'a>),
    And(Box<Test<'a>>, Box<Test<'a>>),
    Or(Box<Test<'a>>, Box<Test<'a>>),
    Not(Box<Test<'a>>),
}

/// A column of a source and its kind.
#[derive(Drop)]
pub struct Declared<'a> {
    pub name: Word<'a>,
    pub kind: Kind,
}

/// A new column and its formula.
#[derive(Drop)]
pub struct Computed<'a> {
    pub name: Word<'a>,
    pub formula: Formula<'a>,
}

/// Two columns: of the left input and of the right one, or the new name and the old one.
#[derive(Drop)]
pub struct Pair<'a> {
    pub first: Word<'a>,
    pub second: Word<'a>,
}

/// What a new column of an aggregation says of a group's rows, over a named column.
#[derive(Drop)]
pub enum Function<'a> {
    Count,
    Sum(Word<'a>),
    Min(Word<'a>),
    Max(Word<'a>),
    First(Word<'a>),
    Last(Word<'a>),
}

/// A new column of an aggregation.
#[derive(Drop)]
pub struct AggColumn<'a> {
    pub name: Word<'a>,
    pub function: Function<'a>,
}

/// A column that is sorted by.
#[derive(Drop)]
pub struct Sorted<'a> {
    pub name: Word<'a>,
    pub descending: bool,
}

/// What a line says.
#[derive(Drop)]
pub enum Line<'a> {
    /// Nothing: it is blank or a remark.
    Skipped,
    Source {
        name: Word<'a>,
        columns: Items<Declared<'a>>,
        file: Option<Word<'a>>,
    },
    Node {
        name: Word<'a>,
        making: Making<'a>,
    },
    Print {
        name: Word<'a>,
    },
    Publish {
        name: Word<'a>,
        rows: i64,
    },
}
