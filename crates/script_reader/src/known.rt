//! The script so far.

ghost use Rattle.std.specs.Prelude.{◌≡◌, ◌≤◌, [], map, nat_lt, length, OnOk, IfOk};
ghost use Rattle.std.specs.List.{position_or_len};
ghost use Rattle.script_lines.specs.Answers.{Gives};
ghost use Rattle.script_reader.specs.Checks.{placed, in_order, is_among as is_among_of, said};
ghost use Rattle.script_reader.specs.Drafts.{shown};
ghost use Rattle.script_reader.specs.Plain.{plain_script};
ghost use Rattle.script_reader.specs.Said.{said_source, said_node, said_print, said_publish};

use crate::columns::{owned, source_columns};
use crate::drafts::{Draft, drafted};
use crate::nodes::Nodes;
use crate::numbers::{limit, number};
use crate::script::{Script, SourceFile};
use crate::texts::Texts;
use script_lines::fault::{LineFault, ScriptKind};
use script_lines::line::{Declared, Line};
use script_lines::making::Making;
use script_lines::token::Word;
use std::alloc::{AllocError, Global};
use tick_model::items::Items;
use tick_model::limits::MOST_WORDS;
use tick_model::name::Name;
use tick_model::plan::{Op, Plan, Published};
use tick_model::published::published_words;

/// The script so far.
#[derive(Drop)]
pub(crate) struct Known {
    alloc: Global,
    nodes: Nodes,
    printed: Vec<u32>,
    published: Items<Published>,
    literals: Texts,
    files: Items<SourceFile>,
}

/// Whether a node is one of these.
fn is_among(node: u32, others: &[u32]) -> bool
    ensures { result ≡ is_among_of node others.now }
{
    others.iter().any(|other| node == *other)
}

/// Where a node comes among nodes that stand in order: before the first of a greater number.
fn place_in_order(node: u32, printed: &[u32]) -> usize
    ensures place { result ≡ position_or_len (λ other. nat_lt node other) printed.now }
    ensures within { result ≤ length printed.now }
{
    printed
        .iter()
        .position(|other| node < *other)
        .unwrap_or(printed.len())
}

/// Puts a node before the first of a greater number.
fn put_in_order(node: u32, printed: &mut Vec<u32>) -> Result<(), AllocError>
    ensures { OnOk result (printed.new.items ≡ in_order node printed.old.items) }
{
    let place = place_in_order(node, printed.as_slice());
    printed.insert(place, node)?;
    Ok(())
}

fn is_published(node: u32, published: &[Published]) -> bool
    ensures { result ≡ is_among_of node (map (λ publication. publication.node) published.now) }
{
    published.iter().any(|publication| node == publication.node)
}

fn file_name(alloc: Global, file: &Option<Word>) -> Result<Option<Name>, AllocError>
    ensures { IfOk result (λ name. name ≡ file.now) }
{
    match file {
        Some(file) => Ok(Some(owned(alloc, file.as_str())?)),
        None => Ok(None),
    }
}

impl Known {
    ghost use Rattle.script_reader.specs.SoFar.{so_far};
    ghost use Rattle.script_reader.specs.Scripts.{nothing};

    /// A script of no lines.
    pub(crate) fn new(alloc: Global) -> Known
        ensures { so_far result ≡ nothing }
    {
        Known {
            alloc,
            nodes: Nodes::new(alloc),
            printed: Vec::new(alloc),
            published: Items::new(alloc),
            literals: Texts::new(alloc),
            files: Items::new(alloc),
        }
    }

    /// The script with one node more, unless the node breaks a rule.
    fn place(self, name: &Word, draft: Draft) -> Result<Known, LineFault>
        ensures { Gives so_far result (placed (so_far self) name.now (shown self.literals draft) []) }
    {
        let nodes = self.nodes.place(name, draft)?;
        Ok(Known { nodes, ..self })
    }

    fn source(
        mut self,
        name: &Word,
        declared: &[Declared],
        file: &Option<Word>,
    ) -> Result<Known, LineFault>
        ensures { Gives so_far result (said_source (so_far self) name.now declared.now file.now) }
    {
        let node = number(self.nodes.len())?;
        let file = file_name(self.alloc, file)?;
        self.files.push(SourceFile { node, file })?;
        let columns = source_columns(self.alloc, declared)?;
        let draft = Draft {
            op: Op::Source,
            columns,
            kinds_fit: true,
            rows_fit: true,
        };
        self.place(name, draft)
    }

    fn node(mut self, name: &Word, making: &Making) -> Result<Known, LineFault>
        ensures { Gives so_far result (said_node (so_far self) name.now making.now) }
    {
        let draft = drafted(self.alloc, &self.nodes, &mut self.literals, making)?;
        self.place(name, draft)
    }

    fn print(mut self, name: &Word) -> Result<Known, LineFault>
        ensures { Gives so_far result (said_print (so_far self) name.now) }
    {
        let node = self.nodes.named(name)?;
        if is_among(node, self.printed.as_slice()) {
            return Err(LineFault::Refused(ScriptKind::TakenName));
        }
        put_in_order(node, &mut self.printed)?;
        Ok(self)
    }

    fn publish(mut self, name: &Word, rows: i64) -> Result<Known, LineFault>
        ensures { Gives so_far result (said_publish (so_far self) name.now rows) }
    {
        let node = self.nodes.named(name)?;
        if is_published(node, self.published.as_slice()) {
            return Err(LineFault::Refused(ScriptKind::TakenName));
        }
        let limit = match limit(rows) {
            Some(limit) => limit,
            None => return Err(LineFault::Refused(ScriptKind::NumberRange)),
        };
        let width = number(self.nodes.columns(node).len())?;
        self.published.push(Published { node, width, limit })?;
        if published_words(&self.published) > MOST_WORDS {
            return Err(LineFault::Refused(ScriptKind::TooWide));
        }
        Ok(self)
    }

    /// The script after a line. A line that is refused gives the script up.
    #[tactic(auto, unfolding(crate::specs::Checks::said))]
    pub(crate) fn take_in(self, line: &Line) -> Result<Known, LineFault>
        ensures { Gives so_far result (said (so_far self) line.now) }
    {
        match line {
            Line::Skipped => Ok(self),
            Line::Source {
                name,
                columns,
                file,
            } => self.source(name, columns.as_slice(), file),
            Line::Node { name, making } => self.node(name, making),
            Line::Print { name } => self.print(name),
            Line::Publish { name, rows } => self.publish(name, *rows),
        }
    }

    /// What the lines said.
    pub(crate) fn into_script(self) -> Result<Script, AllocError>
        ensures { IfOk result (λ script. plain_script script ≡ so_far self) }
    {
        let Known {
            alloc: _,
            nodes,
            printed,
            published,
            literals,
            files,
        } = self;
        Ok(Script {
            plan: Plan {
                nodes: Items::of(nodes.into_vec()),
                printed: Items::of(printed),
                published,
            },
            literals: literals.into_names()?,
            files,
        })
    }
}
