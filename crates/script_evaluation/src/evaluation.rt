//! The evaluation of a script, verb by verb.
ghost use Rattle.std.specs.Prelude.{◌≡◌, List, IfOk};
ghost use Rattle.std.specs.Option.{option_copied};
ghost use Rattle.scalar_value.specs.declared.memory.Or.TheVariants.{Fault};
ghost use Rattle.verb_forms.specs.After.{after};
ghost use Rattle.verb_forms.specs.Shapes.{shape_of};
ghost use Rattle.script_evaluation.specs.EvaluationLaws.{IsStageOf, GivesStage};
ghost use Rattle.script_evaluation.specs.Evaluation.{Named, Evaluated, Scope, opening as opened, with_verb as evaluated_verb, with_call as evaluated_call, with_calls as evaluated_calls, piped as evaluated_pipe, with_assigned as evaluated_assigns, evaluated};
ghost use Rattle.script_evaluation.specs.Working.{IsScopeOf, GivesScope, table_stage, found_stage};

use crate::fault::{EvaluationFault, EvaluationKind};
use crate::stage::Stage;
use plan_compile::{TooLarge, Tree};
use row_table::Table;
use scalar_value::{Mem, Or, Res, Text};
use std::alloc::Global;
use verb_forms::{Shape, Verb};
use verb_syntax::{Call, Pipe, Script};
use verb_types::{VerbKind, check};

/// A fault at a place.
fn fault_at(kind: EvaluationKind, at: u32) -> Or<EvaluationFault>
    ensures { result ≡ Fault (record { kind = kind; at = at }) }
{
    Or::Fault(EvaluationFault { kind, at })
}

/// What a table of the words stands for: itself.
fn stage_of(alloc: Global, name: &Text, table: &Table, source: usize) -> Mem<Stage>
    ensures { IfOk result (λ stage. stage ≡ table_stage (name.now, table.now) source) }
{
    let shape = Shape::of(table)?;
    let tree = Tree::source(alloc, name, &shape)?;
    Ok(Stage {
        tree,
        shape,
        source,
    })
}

/// What the names of a script stand for at its start.
fn opening(alloc: Global, tables: &[(Text, Table)]) -> Mem<Vec<(Text, Stage)>>
    ensures { IfOk result (λ scope. IsScopeOf tables.now (opened tables.now) scope.items) }
{
    let mut scope = Vec::with_capacity(alloc, tables.len())?;
    for (source, (name, table)) in tables.iter().enumerate() {
        scope.push((name.copy()?, stage_of(alloc, name, table, source)?))?;
    }
    Ok(scope)
}

/// What a name stands for: the last of that name.
fn found<'a>(scope: &'a [(Text, Stage)], name: &Text) -> Option<&'a Stage>
    ensures { option_copied result ≡ found_stage name.now scope.now }
{
    for (own, stage) in scope.iter().rev() {
        if own == name {
            return Some(stage);
        }
    }
    None
}

/// A stage with a checked verb more, which leaves this shape.
fn with_verb(stage: Stage, verb: &Verb, shape: Shape, at: u32) -> Res<Stage, EvaluationFault>
    ensures { (tables : List Named) (e : Evaluated) → IsStageOf tables e stage → shape ≡ after verb.now (shape_of e.table) → GivesStage tables result (evaluated_verb at e verb.now) }
{
    match stage.tree.add(verb, None) {
        Ok(tree) => Ok(Stage {
            tree,
            shape,
            source: stage.source,
        }),
        Err(Or::Fault(TooLarge)) => Err(fault_at(EvaluationKind::PlanTooLarge, at)),
        Err(Or::Memory) => Err(Or::Memory),
    }
}

/// A stage with the verb of a call more.
fn with_call(alloc: Global, stage: Stage, call: &Call) -> Res<Stage, EvaluationFault>
    ensures { (tables : List Named) (e : Evaluated) → IsStageOf tables e stage → GivesStage tables result (evaluated_call e call.now) }
{
    match check(alloc, call, &stage.shape, None) {
        Ok((verb, shape)) => with_verb(stage, &verb, shape, call.at),
        Err(Or::Fault(fault)) => Err(fault_at(EvaluationKind::Verb(fault.kind), fault.at)),
        Err(Or::Memory) => Err(Or::Memory),
    }
}

/// A stage with the verbs of calls more, one after the other.
fn with_calls(alloc: Global, stage: Stage, calls: &[Call]) -> Res<Stage, EvaluationFault>
    ensures { (tables : List Named) (e : Evaluated) → IsStageOf tables e stage → GivesStage tables result (evaluated_calls e calls.now) }
{
    let mut stage = stage;
    for call in calls {
        stage = with_call(alloc, stage, call)?;
    }
    Ok(stage)
}

/// What a pipeline gives.
fn piped(alloc: Global, scope: &[(Text, Stage)], pipe: &Pipe) -> Res<Stage, EvaluationFault>
    ensures { (tables : List Named) (names : Scope) → IsScopeOf tables names scope.now → GivesStage tables result (evaluated_pipe names pipe.now) }
{
    match found(scope, &pipe.table) {
        Some(stage) => with_calls(alloc, stage.copy()?, pipe.calls.as_slice()),
        None => Err(fault_at(EvaluationKind::Verb(VerbKind::UnknownTable), pipe.at)),
    }
}

/// What the names stand for behind the assignments.
fn with_assigned(
    alloc: Global,
    scope: &mut Vec<(Text, Stage)>,
    assigns: &[(Text, Pipe)],
) -> Res<(), EvaluationFault>
    ensures { (tables : List Named) (names : Scope) → IsScopeOf tables names scope.old.items → GivesScope tables scope.new.items result (evaluated_assigns names assigns.now) }
{
    for (name, pipe) in assigns {
        let stage = piped(alloc, scope, pipe)?;
        scope.push((name.copy()?, stage))?;
    }
    Ok(())
}

/// What a script means over these tables, by its tree of nodes, the shape of its table and the table that the tree begins
/// with; or the first fault. Its assignments are evaluated in order and then its last pipeline, each from left to right. An
/// assignment hides an earlier one of its name and a table of that name. At each verb its check comes first, as dplyr's and
/// tidyr's functions check their arguments, and then the size of the plan.
pub fn evaluate(
    alloc: Global,
    script: &Script,
    tables: &[(Text, Table)],
) -> Res<Stage, EvaluationFault>
    ensures { GivesStage tables.now result (evaluated script.now tables.now) }
{
    let mut scope = opening(alloc, tables)?;
    with_assigned(alloc, &mut scope, script.assigns.as_slice())?;
    piped(alloc, &scope, &script.last)
}
