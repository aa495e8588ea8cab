//! Trees of nodes, verb by verb.
ghost use Rattle.std.specs.Prelude.{◌≡◌, ◌≤◌, ◌++◌, IfOk};
ghost use Rattle.scalar_value.specs.Gives.{Gives};
ghost use Rattle.plan_compile.specs.Trees.{source_tree, tree_columns, with_verb, plan_size, plan_of, added};

use crate::steps::{step_count, steps_of};
use chain_plans::{Step, chain};
use plan_nodes::Plan;
use row_table::{Mark, Schema};
use scalar_value::{Mem, Or, Res, Seq, Text};
use std::alloc::Global;
use verb_forms::{Shape, Verb};

/// The nodes of a stage before its sink: the table that it begins with, by name, mark and columns, and the filters and
/// projects behind it.
#[derive(Debug, Drop)]
pub struct Tree {
    pub name: Text,
    pub mark: Mark,
    pub schema: Schema,
    pub steps: Seq<Step>,
}

/// A plan would have more than 256 nodes, its sink included.
#[derive(Debug, Clone, Copy, PartialEq, Eq)]
pub struct TooLarge;

/// An equal step.
fn step_copy(step: &Step) -> Mem<Step>
    ensures { IfOk result (λ made. made ≡ step.now) }
{
    Ok(Step {
        kind: step.kind.copy()?,
        schema: step.schema.copy()?,
    })
}

/// Equal steps.
fn steps_copy(steps: &Seq<Step>) -> Mem<Seq<Step>>
    ensures { IfOk result (λ made. made ≡ steps.now) }
{
    let mut made = Seq::new(steps.alloc());
    for step in steps.as_slice() {
        made.push(step_copy(step)?)?;
    }
    Ok(made)
}

/// Steps and more steps behind them, which are moved.
fn joined(steps: Seq<Step>, more: Seq<Step>) -> Mem<Seq<Step>>
    ensures { IfOk result (λ made. made ≡ steps ++ more) }
{
    let mut made = steps.into_vec();
    let mut rest = more.into_vec();
    made.append(&mut rest)?;
    Ok(Seq::of(made))
}

impl Tree {
    /// The tree of a table alone, by its name: a source without steps. The only error is want of memory.
    pub fn source(alloc: Global, name: &Text, shape: &Shape) -> Mem<Tree>
        ensures { IfOk result (λ t. t ≡ source_tree name.now shape.now) }
    {
        Ok(Tree {
            name: name.copy()?,
            mark: shape.mark,
            schema: shape.schema.copy()?,
            steps: Seq::new(alloc),
        })
    }

    /// An equal tree. The only error is want of memory.
    pub fn copy(&self) -> Mem<Tree>
        ensures { IfOk result (λ t. t ≡ self.now) }
    {
        Ok(Tree {
            name: self.name.copy()?,
            mark: self.mark,
            schema: self.schema.copy()?,
            steps: steps_copy(&self.steps)?,
        })
    }

    /// The columns behind the last step.
    fn columns(&self) -> &Schema
        ensures { result.now ≡ tree_columns self.now }
    {
        match self.steps.as_slice().last() {
            Some(step) => &step.schema,
            None => &self.schema,
        }
    }

    /// The tree with a verb's steps behind its own.
    fn with_verb(&self, verb: &Verb) -> Mem<Tree>
        ensures { IfOk result (λ t. t ≡ with_verb self.now verb.now) }
    {
        let more = steps_of(self.steps.alloc(), verb, self.columns())?;
        Ok(Tree {
            name: self.name.copy()?,
            mark: self.mark,
            schema: self.schema.copy()?,
            steps: joined(steps_copy(&self.steps)?, more)?,
        })
    }

    /// The tree with a verb's nodes behind its own: a filter for `filter` and `drop_na`; a project for each expression of
    /// `mutate`, since the expressions of one of Acero's projects don't see one another and those of dplyr's `mutate` do; one
    /// project for `select`, `rename`, `relocate` and `replace_na`; none for `group_by` and `ungroup`. `TooLarge` exactly
    /// where that tree and a sink would have more than 256 nodes.
    ///
    /// `right` is the tree of a join's right table: no verb that is built takes one.
    pub fn add(&self, verb: &Verb, right: Option<&Tree>) -> Res<Tree, TooLarge>
        requires alone { right ≡ None }
        ensures { Gives result (added self.now verb.now) }
    {
        if self.steps.len() > 254 || step_count(verb) > 254 - self.steps.len() {
            return Err(Or::Fault(TooLarge));
        }
        Ok(self.with_verb(verb)?)
    }

    /// The plan of the tree, a sink behind its last node. The only error is want of memory.
    pub fn plan(&self) -> Mem<Plan>
        requires { plan_size self.now ≤ 256 }
        ensures { IfOk result (λ plan. plan.nodes ≡ plan_of self.now) }
    {
        let steps = steps_copy(&self.steps)?;
        let schema = self.schema.copy()?;
        chain(
            self.steps.alloc(),
            self.name.copy()?,
            self.mark,
            schema,
            steps,
        )
    }
}
