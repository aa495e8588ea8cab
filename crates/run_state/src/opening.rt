ghost use Rattle.std.specs.Prelude.{◌≡◌, ◌≤◌, [], length, IfOk};
ghost use Rattle.plan_nodes.specs.Plans.{IsPlan};
ghost use Rattle.plan_store.specs.Told.{given_by};
ghost use Rattle.plan_store.specs.Beginning.{AreTables, AreOperators, IsSetting};

use crate::state::RunState;
use plan_nodes::{Operator, Plan, plans_are_well_formed};
use plan_store::{Setting, infos_of, queues_of, rows_of, seats_of, stages_of};
use row_table::Table;
use scalar_value::{Mem, Seq};
use std::alloc::Global;
use std::sync::Arc;

impl<O: Operator> RunState<O> {
    /// A run of a plan that begins: over a table for each of its sources and an operator for each other node, both in the
    /// order of the plan, at this setting. It takes the room of all edges, so whoever has claimed can always deliver.
    pub fn new(
        alloc: Global,
        plan: &Plan,
        ops: Seq<Arc<O, Global>>,
        sources: Seq<Arc<Table, Global>>,
        setting: Setting,
    ) -> Mem<RunState<O>>
        requires planned { IsPlan plan.now.nodes }
        requires nodes { length plan.now.nodes ≤ 256 }
        requires operators { AreOperators O.meaning plan.now.nodes setting.batch ops }
        requires tables { AreTables plan.now.nodes sources }
        requires setting { IsSetting setting }
        ensures { IfOk result (λ state. state ≡ record { given = given_by plan.now.nodes sources setting; history = []; room = 0 }) }
    {
        plans_are_well_formed();
        let nodes = plan.nodes.as_slice();
        let infos = infos_of(alloc, nodes)?;
        let stages = stages_of(alloc, nodes, &sources, setting.batch)?;
        let queues = queues_of(
            alloc,
            nodes.len(),
            (setting.pause + setting.workers) as usize,
        )?;
        let shares = rows_of(alloc, nodes, sources.as_slice(), ops.as_slice(), setting)?;
        let seats = seats_of(alloc, setting.workers as usize)?;
        let plan = plan.copy()?;
        Ok(RunState {
            plan,
            sources,
            setting,
            infos,
            stages,
            queues,
            shares,
            seats,
            failed: false,
            flying: 0,
            history: Vec::new(alloc),
            room: 0,
        })
    }
}
