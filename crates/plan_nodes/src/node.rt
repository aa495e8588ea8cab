ghost use Rattle.std.specs.Prelude.{◌≡◌, IfOk, false};
ghost use Rattle.plan_nodes.specs.Kinds.{is_source};
ghost use Rattle.plan_nodes.specs.Plans.{mark_by};

use crate::options::{AggSpec, JoinSpec, LongerSpec, SortKey, WindowSpec};
use na_expr::Expr;
use row_table::{Mark, Schema};
use scalar_value::{Duplicate, Mem, Seq, Text};

/// A plan: its nodes, inputs before their users and the sink last.
#[derive(Debug, Drop)]
pub struct Plan {
    pub nodes: Seq<Node>,
}

/// A node of a plan: what it does, the numbers of its inputs, whether its rows have an order that is kept, and its columns.
///
/// Nodes are numbered from 1 in the order of the plan. A join's first input is streamed, its second is gathered.
#[derive(Debug, Drop)]
pub struct Node {
    pub kind: NodeKind,
    pub inputs: Seq<u32>,
    pub mark: Mark,
    pub schema: Schema,
}

/// What a node does, by the names of Acero's nodes: a source gives the rows of a table, by its name; a filter keeps the
/// rows on which a condition is TRUE; a project gives the values of expressions; an aggregate gives a row for each key; a
/// hashjoin gathers its second input and gives what the rows of its first input have with it; an order_by sorts its
/// input; a fetch leaves so many rows out and gives so many; a sink ends the plan. Two kinds are this project's own: a
/// longer gives a row for each of some columns, and a window puts values over the rows of a group behind each row.
#[derive(Debug, Drop)]
pub enum NodeKind {
    Source(Text),
    Filter(Expr),
    Project(Seq<Expr>),
    Longer(LongerSpec),
    Aggregate(AggSpec),
    HashJoin(JoinSpec),
    OrderBy(Seq<SortKey>),
    Fetch(u64, u64),
    Window(WindowSpec),
    Sink,
}

impl NodeKind {
    /// An equal kind. The only error is want of memory.
    pub fn copy(&self) -> Mem<NodeKind>
        ensures { IfOk result (λ kind. kind ≡ self.now) }
    {
        match self {
            NodeKind::Source(name) => Ok(NodeKind::Source(name.copy()?)),
            NodeKind::Filter(condition) => Ok(NodeKind::Filter(condition.copy()?)),
            NodeKind::Project(values) => Ok(NodeKind::Project(values.copy()?)),
            NodeKind::Longer(spec) => Ok(NodeKind::Longer(spec.copy()?)),
            NodeKind::Aggregate(spec) => Ok(NodeKind::Aggregate(spec.copy()?)),
            NodeKind::HashJoin(spec) => Ok(NodeKind::HashJoin(spec.copy()?)),
            NodeKind::OrderBy(keys) => Ok(NodeKind::OrderBy(Seq::of_slice(
                keys.alloc(),
                keys.as_slice(),
            )?)),
            NodeKind::Fetch(offset, count) => Ok(NodeKind::Fetch(*offset, *count)),
            NodeKind::Window(spec) => Ok(NodeKind::Window(spec.copy()?)),
            NodeKind::Sink => Ok(NodeKind::Sink),
        }
    }
}

impl Node {
    /// An equal node. The only error is want of memory.
    pub fn copy(&self) -> Mem<Node>
        ensures { IfOk result (λ v. v ≡ self.now) }
    {
        Ok(Node {
            kind: self.kind.copy()?,
            inputs: self.inputs.copy()?,
            mark: self.mark,
            schema: self.schema.copy()?,
        })
    }
}

impl Duplicate for Node {
    fn duplicate(&self) -> Mem<Node> {
        self.copy()
    }
}

impl Plan {
    /// An equal plan. The only error is want of memory.
    pub fn copy(&self) -> Mem<Plan>
        ensures { IfOk result (λ plan. plan ≡ self.now) }
    {
        Ok(Plan {
            nodes: self.nodes.copy()?,
        })
    }
}

/// The mark of a node that is no source, by the marks of its inputs. As of Acero's nodes, the rows of an order_by have an
/// order, those of an aggregate and of a hashjoin have none, and every other kind keeps the order of its one input.
pub fn mark_of(kind: &NodeKind, inputs: &[Mark]) -> Mark
    requires no_source { is_source kind.now ≡ false }
    ensures { result ≡ mark_by kind.now inputs.now }
{
    match kind {
        NodeKind::OrderBy(_) => Mark::Kept,
        NodeKind::Aggregate(_) | NodeKind::HashJoin(_) => Mark::Unordered,
        NodeKind::Source(_)
        | NodeKind::Filter(_)
        | NodeKind::Project(_)
        | NodeKind::Longer(_)
        | NodeKind::Fetch(_, _)
        | NodeKind::Window(_)
        | NodeKind::Sink => match inputs.first() {
            Some(mark) => *mark,
            None => Mark::Unordered,
        },
    }
}
