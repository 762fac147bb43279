//! The nodes so far, found by their names, with the bounds of their keys.

ghost use Rattle.std.specs.Prelude.{◌≡◌, ◌++◌, ◌∷◌, [], ◌^◌, ◌<◌, map, sum, length, slice_index, IfOk};
ghost use Rattle.std.specs.List.{All};
ghost use Rattle.tick_model.specs.Names.{is_one_of};
ghost use Rattle.tick_model.specs.Plans.{columns_at, key_bounds};
ghost use Rattle.tick_model.specs.Operators.{bound_of};
ghost use Rattle.script_lines.specs.Answers.{Gives};
ghost use Rattle.script_reader.specs.Checks.{node_named, names_of, broken as broken_of, or_broken};
ghost use Rattle.script_reader.specs.Drafts.{shown};

use crate::columns::owned;
use crate::drafts::Draft;
use crate::numbers::found;
use crate::texts::Texts;
use script_lines::fault::{LineFault, ScriptKind};
use script_lines::token::Word;
use std::alloc::{AllocError, Global};
use tick_model::columns::columns_at;
use tick_model::limits::{KEY_SPACE, MOST_COLUMNS, MOST_NODES};
use tick_model::names::are_distinct;
use tick_model::plan::{ColumnSpec, Node, Op};

/// The nodes so far, found by their names, with the bounds of their keys.
#[derive(Drop)]
pub(crate) struct Nodes {
    alloc: Global,
    nodes: Vec<Node>,
    names: Texts,
    bounds: Vec<u64>,
    ghost named: { names ≡ names_of nodes.items },
    ghost bounded: { bounds.items ≡ key_bounds nodes.items },
    ghost roomy: { All (λ bound. bound < 2 ^ 62) bounds.items },
}

impl Nodes {
    /// No nodes.
    pub(crate) fn new(alloc: Global) -> Nodes
        ensures { result.nodes.items ≡ [] }
    {
        Nodes {
            alloc,
            nodes: Vec::new(alloc),
            names: Texts::new(alloc),
            bounds: Vec::new(alloc),
        }
    }

    /// How many nodes there are.
    pub(crate) fn len(&self) -> usize
        ensures { result ≡ length self.now.nodes.items }
    {
        self.nodes.len()
    }

    /// The nodes as a vector, in order of their numbers.
    pub(crate) fn into_vec(self) -> Vec<Node>
        ensures { result.items ≡ self.nodes.items }
    {
        let Nodes {
            alloc: _,
            nodes,
            names: _,
            bounds: _,
        } = self;
        nodes
    }

    /// The number of the node that an earlier line defines by the name.
    #[tactic(auto, unfolding(crate::specs::Checks::node_named))]
    pub(crate) fn named(&self, name: &Word) -> Result<u32, LineFault>
        ensures { Gives (λ node. node) result (node_named (names_of self.now.nodes.items) name.now) }
    {
        found(self.names.place(name.as_str()), ScriptKind::UnknownName)
    }

    /// The nodes, in order of their numbers.
    pub(crate) fn as_slice(&self) -> &[Node]
        ensures { result.now ≡ self.now.nodes.items }
    {
        self.nodes.as_slice()
    }

    /// The columns of a node, or none where there is no such node.
    pub(crate) fn columns(&self, node: u32) -> &[ColumnSpec]
        ensures { result.now ≡ columns_at self.now.nodes.items node }
    {
        columns_at(self.nodes.as_slice(), node)
    }

    /// Whether a node has the name.
    fn has(&self, name: &Word) -> bool
        ensures { result ≡ is_one_of (names_of self.now.nodes.items) name.now }
    {
        self.names.place(name.as_str()).is_some()
    }

    /// The bound of a node behind these.
    fn bound(&self, op: &Op) -> u128
        ensures { result ≡ bound_of op.now (slice_index (key_bounds self.now.nodes.items)) }
    {
        op.bound(self.bounds.as_slice())
    }

    /// The first rule that a node of this name would break.
    #[tactic(auto, using(crate::proofs::Plainly::bound_plain))]
    fn broken(&self, name: &Word, draft: &Draft) -> Option<ScriptKind>
        ensures { result ≡ broken_of self.now.nodes.items name.now (shown [] draft.now) }
    {
        if self.has(name) {
            Some(ScriptKind::TakenName)
        } else if !are_distinct(draft.columns.as_slice()) {
            Some(ScriptKind::TakenColumn)
        } else if !draft.kinds_fit {
            Some(ScriptKind::WrongKind)
        } else if !draft.rows_fit {
            Some(ScriptKind::NumberRange)
        } else if draft.columns.len() > MOST_COLUMNS {
            Some(ScriptKind::TooManyColumns)
        } else if self.nodes.len() >= MOST_NODES {
            Some(ScriptKind::TooManyNodes)
        } else if self.bound(&draft.op) >= u128::from(KEY_SPACE) {
            Some(ScriptKind::KeySpace)
        } else {
            None
        }
    }

    /// The nodes with one more, which breaks no rule.
    fn with(self, name: &Word, draft: Draft) -> Result<Nodes, AllocError>
        requires { broken_of self.nodes.items name.now (shown [] draft) ≡ None }
        ensures { IfOk result (λ more. more.nodes.items ≡ self.nodes.items ++ record { name = name.now; columns = draft.columns; op = draft.op } ∷ []) }
    {
        let Draft { op, columns, .. } = draft;
        let Nodes {
            alloc,
            mut nodes,
            mut names,
            mut bounds,
        } = self;
        let bound = op.bound(bounds.as_slice()) as u64;
        bounds.push(bound)?;
        names.number(name.as_str())?;
        let name = owned(alloc, name.as_str())?;
        nodes.push(Node { name, columns, op })?;
        Ok(Nodes {
            alloc,
            nodes,
            names,
            bounds,
        })
    }

    /// The nodes with one more, unless it breaks a rule.
    pub(crate) fn place(self, name: &Word, draft: Draft) -> Result<Nodes, LineFault>
        ensures { Gives (λ more. more.nodes.items) result (or_broken (broken_of self.nodes.items name.now (shown [] draft)) (self.nodes.items ++ record { name = name.now; columns = draft.columns; op = draft.op } ∷ [])) }
    {
        if let Some(kind) = self.broken(name, &draft) {
            return Err(LineFault::Refused(kind));
        }
        Ok(self.with(name, draft)?)
    }
}
