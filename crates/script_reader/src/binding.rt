//! The ranks of texts in the place of their numbers.

ghost use Rattle.std.specs.Prelude.{◌≡◌, IfOk, map};
ghost use Rattle.std.specs.List.{position_or_len};
ghost use Rattle.std.specs.Str.{bytes_eq};
ghost use Rattle.tick_model.specs.LawfulRuns.{AreTexts};
ghost use Rattle.script_reader.specs.Binding.{ranks_of as ranks_among, rank_at as rank_in, bound_expr, bound_test, bound_op, bound_node, bound};
ghost use Rattle.script_reader.specs.Plain.{plain, plain_test, plain_op, plain_node, plain_plan};

use crate::script::Script;
use std::alloc::{AllocError, Global};
use std::mem;
use tick_model::items::Items;
use tick_model::name::Name;
use tick_model::plan::{Expr, Node, Op, Plan, Pred};

/// The place of a text among others that rise in byte order, or how many there are where it is none of them.
fn rank_of(text: &str, texts: &[Name]) -> usize
    requires { AreTexts texts.now }
    ensures { result ≡ position_or_len (bytes_eq text.now) texts.now }
{
    match texts.binary_search_by(|other| other.as_str().cmp(&text)) {
        Ok(rank) => rank,
        Err(_) => texts.len(),
    }
}

/// The rank of each literal. No more than 2^32 texts fit in memory beside the script.
fn ranks_of(alloc: Global, literals: &[Name], texts: &[Name]) -> Result<Vec<u32>, AllocError>
    requires { AreTexts texts.now }
    ensures { IfOk result (λ ranks. ranks.items ≡ ranks_among texts.now literals.now) }
{
    let mut ranks = Vec::new(alloc);
    for literal in literals {
        match u32::try_from(rank_of(literal.as_str(), texts)) {
            Ok(rank) => ranks.push(rank)?,
            Err(_) => return Err(AllocError),
        }
    }
    Ok(ranks)
}

fn rank_at(ranks: &[u32], literal: u32) -> i64
    ensures { result ≡ rank_in ranks.now literal }
{
    i64::from(ranks.get(literal as usize).copied().unwrap_or(0))
}

fn bind_expr(ranks: &[u32], expr: &mut Expr)
    ensures { plain expr.new ≡ bound_expr ranks.now expr.old }
{
    match expr {
        Expr::Cell(_) | Expr::Number(_) | Expr::Null | Expr::Rank(_) => {}
        Expr::Literal(literal) => *expr = Expr::Rank(rank_at(ranks, *literal)),
        Expr::Neg(a) => bind_expr(ranks, a),
        Expr::Add(a, b) => {
            bind_expr(ranks, a);
            bind_expr(ranks, b);
        }
        Expr::Sub(a, b) => {
            bind_expr(ranks, a);
            bind_expr(ranks, b);
        }
        Expr::Mul(a, b) => {
            bind_expr(ranks, a);
            bind_expr(ranks, b);
        }
    }
}

fn bind_test(ranks: &[u32], test: &mut Pred)
    ensures { plain_test test.new ≡ bound_test ranks.now test.old }
{
    match test {
        Pred::Compare(_, a, b) => {
            bind_expr(ranks, a);
            bind_expr(ranks, b);
        }
        Pred::And(a, b) => {
            bind_test(ranks, a);
            bind_test(ranks, b);
        }
        Pred::Or(a, b) => {
            bind_test(ranks, a);
            bind_test(ranks, b);
        }
        Pred::Not(a) => bind_test(ranks, a),
    }
}

fn bind_exprs(alloc: Global, ranks: &[u32], exprs: &mut Items<Expr>)
    ensures { map plain exprs.new ≡ map (bound_expr ranks.now) exprs.old }
{
    let mut all = mem::replace(exprs, Items::new(alloc)).into_vec();
    for expr in all.iter_mut() {
        bind_expr(ranks, expr);
    }
    *exprs = Items::of(all);
}

fn bind_op(alloc: Global, ranks: &[u32], op: &mut Op)
    ensures { plain_op op.new ≡ bound_op ranks.now op.old }
{
    match op {
        Op::Keep { test, .. } => bind_test(ranks, test),
        Op::View { exprs, .. } => bind_exprs(alloc, ranks, exprs),
        _ => {}
    }
}

fn bind_node(alloc: Global, ranks: &[u32], node: &mut Node)
    ensures { plain_node node.new ≡ bound_node ranks.now node.old }
{
    bind_op(alloc, ranks, &mut node.op);
}

fn bind_nodes(alloc: Global, ranks: &[u32], nodes: Items<Node>) -> Items<Node>
    ensures { map plain_node result ≡ map (bound_node ranks.now) nodes }
{
    let mut nodes = nodes.into_vec();
    for node in nodes.iter_mut() {
        bind_node(alloc, ranks, node);
    }
    Items::of(nodes)
}

impl Script {
    /// The script's plan, with the rank of its text in the place of each literal. The texts rise in byte order, and a text's
    /// rank is its place. The plan's own memory is kept.
    pub fn bind(self, alloc: Global, texts: &Items<Name>) -> Result<Plan, AllocError>
        requires { AreTexts texts.now }
        ensures { IfOk result (λ plan. plain_plan plan ≡ bound self texts.now) }
    {
        let Script {
            plan,
            literals,
            files: _,
        } = self;
        let Plan {
            nodes,
            printed,
            published,
        } = plan;
        let ranks = ranks_of(alloc, literals.as_slice(), texts.as_slice())?;
        Ok(Plan {
            nodes: bind_nodes(alloc, ranks.as_slice(), nodes),
            printed,
            published,
        })
    }
}
