ghost use Rattle.std.specs.Prelude.{◌≡◌, ◌≤◌};
ghost use Rattle.plan_machine.specs.Enabled.{Enabled};
ghost use Rattle.plan_store.specs.Told.{Told, plan_of, state_of, with_entry};

use plan_machine::Entry;
use plan_nodes::{Operator, Plan};
use plan_store::{Flight, NodeInfo, Queue, Setting, Stage, set_paused};
use row_table::Table;
use scalar_value::Seq;
use std::alloc::Global;
use std::marker::Model;
use std::sync::Arc;
use task_work::Share;

/// The state of a plan's run, with its history. What it stores stands for the replay of that history.
#[derive(Drop)]
pub struct RunState<O: Operator> {
    pub(crate) plan: Plan,
    pub(crate) sources: Seq<Arc<Table, Global>>,
    pub(crate) setting: Setting,
    pub(crate) infos: Vec<NodeInfo>,
    pub(crate) stages: Vec<Stage>,
    pub(crate) queues: Vec<Queue>,
    pub(crate) shares: Vec<Vec<Option<Share<O, O::Shared, O::Local>>>>,
    pub(crate) seats: Vec<Option<Flight>>,
    pub(crate) failed: bool,
    pub(crate) flying: usize,
    pub(crate) history: Vec<Entry>,
    pub(crate) room: usize,
}

impl<O: Operator> Model for RunState<O> {
    ghost use Rattle.std.specs.Prelude.{map, vec_capacity};
    ghost use Rattle.std.specs.Coded.{codes};
    ghost use Rattle.na_expr.specs.contracts.expr.Expr as expr;
    ghost use Rattle.plan_store.specs.Told.{Told, given_by};
    ghost use Rattle.run_state.specs.Stored.{Stands};

    ghost Value = { Told };

    ghost coded = { Prim.hlevel (codes, expr.the_row.coded) };

    ghost view = { λ p. record { given = given_by p.plan.nodes p.sources p.setting; history = p.history.items; room = p.room } };

    ghost invariant = { λ p.
        Stands O.meaning O.local_is O.shared_is (given_by p.plan.nodes p.sources p.setting) p.history.items p.infos.items
        p.stages.items p.queues.items (map (λ row. row.items) p.shares.items) p.seats.items p.failed p.flying p.room
        (vec_capacity p.history) };
}

impl<O: Operator> RunState<O> {
    /// Pauses an edge on which more batches wait than the threshold.
    pub fn pause(&mut self, edge: u32)
        requires enabled { Enabled (plan_of self.old.given) (state_of self.old) (Entry.Pause edge) }
        requires room { 1 ≤ self.old.room }
        ensures { self.new ≡ with_entry self.old (Entry.Pause edge) 1 }
    {
        let _room = self.room;
        set_paused(&mut self.queues, (edge - 1) as usize, true);
        self.history.push_reserved(Entry::Pause { edge });
        self.room -= 1;
    }
}
