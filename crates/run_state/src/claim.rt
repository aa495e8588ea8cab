ghost use Rattle.std.specs.Prelude.{◌≡◌, ℕ, ◌<◌, ◌≤◌, true};
ghost use Rattle.plan_machine.specs.Plan.{IsNode};
ghost use Rattle.plan_machine.specs.Enabled.{Enabled};
ghost use Rattle.plan_machine.specs.Driver.{IsClaimChoice};
ghost use Rattle.plan_store.specs.Told.{plan_of, state_of, site_of, with_entry};
ghost use Rattle.run_state.specs.Calls.{Claimed};
ghost use Rattle.run_state.specs.Stored.{takes_all};
ghost use Rattle.plan_store.specs.Taking.{gives_next};
ghost use Rattle.run_state.specs.Claiming.{takes_batch, reads_from, IsShareOf, IsRowOf, IsOldest, IsWorkOf, HasTable, HasPart};

use crate::choice::input_of;
use crate::state::RunState;
use plan_machine::{Entry, Job};
use plan_nodes::Operator;
use plan_store::{Flight, enter, take_front, take_row, take_share};
use row_table::Table;
use std::alloc::Global;
use std::sync::Arc;
use task_work::{Part, Share, Task, Waiting, Work};

/// The table of a source's share.
fn table_of<O: Drop, S: Drop, L: Drop>(share: Option<Share<O, S, L>>) -> Arc<Table, Global>
    requires { HasTable share }
    ensures { share ≡ Some (Share.Table result) }
{
    match share {
        Some(Share::Table(table)) => table,
        _ => unreachable!(),
    }
}

/// A worker's part of a node that is no source.
fn part_of<O: Drop, S: Drop, L: Drop>(share: Option<Share<O, S, L>>) -> Part<O, S, L>
    requires { HasPart share }
    ensures { share ≡ Some (Share.Part result) }
{
    match share {
        Some(Share::Part(part)) => part,
        _ => unreachable!(),
    }
}

impl<O: Operator> RunState<O> {
    /// The edge that a node reads in its phase; in a phase that reads none, its own.
    fn input(&self, node: u32) -> u32
        requires { IsNode (plan_of self.now.given) node }
        ensures { result ≡ reads_from (plan_of self.now.given) node ((state_of self.now).phase node) }
    {
        let place = (node - 1) as usize;
        let stage = self.stages[place];
        let info = self.infos[place];
        input_of(stage.phase, &info, node)
    }

    /// Claims a job that gives the next batch, and takes the worker's share of its node.
    fn take_one(&mut self, worker: u32, flight: Flight) -> Option<Share<O, O::Shared, O::Local>>
        requires gives { gives_next flight.job ≡ true }
        requires enabled { Enabled (plan_of self.old.given) (state_of self.old) (Entry.Claim worker flight.node flight.job flight.number) }
        requires room { 2 ≤ self.old.room }
        ensures told { self.new ≡ with_entry self.old (Entry.Claim worker flight.node flight.job flight.number) 2 }
        ensures share { IsShareOf O.meaning O.local_is O.shared_is self.old worker flight.node result }
    {
        let _room = self.room;
        let share = take_share(
            &mut self.shares,
            (flight.node - 1) as usize,
            (worker - 1) as usize,
        );
        enter(
            &mut self.seats,
            &mut self.stages,
            &mut self.history,
            &mut self.flying,
            worker,
            flight,
        );
        self.room -= 2;
        share
    }

    /// Claims a job that takes the oldest batch of an edge, and takes the worker's share of its node.
    fn take_batch(
        &mut self,
        worker: u32,
        flight: Flight,
        edge: u32,
    ) -> (Option<Share<O, O::Shared, O::Local>>, Waiting)
        requires takes { takes_batch flight.job ≡ true }
        requires oldest { flight.number ≡ 0 }
        requires edge { edge ≡ reads_from (plan_of self.old.given) flight.node ((state_of self.old).phase flight.node) }
        requires enabled { Enabled (plan_of self.old.given) (state_of self.old) (Entry.Claim worker flight.node flight.job flight.number) }
        requires room { 2 ≤ self.old.room }
        ensures told { self.new ≡ with_entry self.old (Entry.Claim worker flight.node flight.job flight.number) 2 }
        ensures share { IsShareOf O.meaning O.local_is O.shared_is self.old worker flight.node result.0 }
        ensures waiting { IsOldest self.old flight.node result.1 }
    {
        let _room = self.room;
        let share = take_share(
            &mut self.shares,
            (flight.node - 1) as usize,
            (worker - 1) as usize,
        );
        let waiting = take_front(&mut self.queues, (edge - 1) as usize);
        enter(
            &mut self.seats,
            &mut self.stages,
            &mut self.history,
            &mut self.flying,
            worker,
            flight,
        );
        self.room -= 2;
        (share, waiting)
    }

    /// Claims a job that puts all workers' parts together, and takes their shares of its node.
    fn take_all(
        &mut self,
        worker: u32,
        flight: Flight,
    ) -> Vec<Option<Share<O, O::Shared, O::Local>>>
        requires all { takes_all flight.job ≡ true }
        requires enabled { Enabled (plan_of self.old.given) (state_of self.old) (Entry.Claim worker flight.node flight.job flight.number) }
        requires room { 2 ≤ self.old.room }
        ensures told { self.new ≡ with_entry self.old (Entry.Claim worker flight.node flight.job flight.number) 2 }
        ensures row { IsRowOf O.meaning O.local_is O.shared_is self.old flight.node result.items }
    {
        let _room = self.room;
        let row = take_row(&mut self.shares, (flight.node - 1) as usize);
        enter(
            &mut self.seats,
            &mut self.stages,
            &mut self.history,
            &mut self.flying,
            worker,
            flight,
        );
        self.room -= 2;
        row
    }

    /// Claims a job that was chosen, and takes its work.
    fn take_work(&mut self, worker: u32, flight: Flight) -> Work<O, O::Shared, O::Local>
        requires chosen { IsClaimChoice (plan_of self.old.given) (state_of self.old) worker flight.node flight.job flight.number }
        requires room { 2 ≤ self.old.room }
        ensures told { self.new ≡ with_entry self.old (Entry.Claim worker flight.node flight.job flight.number) 2 }
        ensures work { IsWorkOf O.meaning O.local_is O.shared_is self.new worker flight.node result }
    {
        let _room = self.room;
        let number = flight.number;
        match flight.job {
            Job::Emit => {
                let share = self.take_one(worker, flight);
                Work::Emit {
                    table: table_of(share),
                    number,
                }
            }
            Job::Fold => {
                let edge = self.input(flight.node);
                let (share, Waiting { batch, from: _ }) = self.take_batch(worker, flight, edge);
                Work::Fold {
                    part: part_of(share),
                    batch,
                }
            }
            Job::Seal => Work::Seal {
                row: self.take_all(worker, flight),
            },
            Job::Stream => {
                let edge = self.input(flight.node);
                let (share, Waiting { batch, from }) = self.take_batch(worker, flight, edge);
                Work::Stream {
                    part: part_of(share),
                    batch,
                    from,
                }
            }
            Job::Close => Work::Close {
                row: self.take_all(worker, flight),
            },
            Job::Tail => {
                let share = self.take_one(worker, flight);
                Work::Tail {
                    part: part_of(share),
                    number,
                }
            }
        }
    }

    /// Whether the order of a node's rows is kept.
    fn is_kept(&self, node: u32) -> bool
        requires { IsNode (plan_of self.now.given) node }
        ensures { (site_of self.now.given node).kept ≡ result }
    {
        self.infos[(node - 1) as usize].kept
    }

    /// The rows of a batch.
    fn batch_rows(&self) -> u32
        ensures { (n : ℕ) → (site_of self.now.given n).batch ≡ result }
    {
        self.setting.batch
    }

    /// Claims what was chosen for a worker, and gives it its work. The room for two entries is used: the claim's and its
    /// delivery's.
    pub fn start(&mut self, worker: u32, flight: Flight) -> Task<O>
        requires chosen { IsClaimChoice (plan_of self.old.given) (state_of self.old) worker flight.node flight.job flight.number }
        requires room { 2 ≤ self.old.room }
        ensures { Claimed O.meaning O.local_is O.shared_is self.old self.new worker result.node result.kept result.batch result.work }
    {
        let node = flight.node;
        let kept = self.is_kept(node);
        let batch = self.batch_rows();
        let work = self.take_work(worker, flight);
        Task {
            node,
            kept,
            batch,
            work,
        }
    }
}
