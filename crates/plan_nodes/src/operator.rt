ghost use Rattle.std.specs.Prelude.{◌≡◌, ◌++◌, ◌<◌, [], ◌∷◌, List, ℕ, Option, IfOk, OnOk, IsTrue, false, true, ◌⊎◌};
ghost use Rattle.scalar_value.specs.declared.value.Value.{Value};
ghost use Rattle.scalar_value.specs.declared.value.ColType.{ColType};
ghost use Rattle.plan_machine.specs.Batch.{Batch as Item, gathered};
ghost use Rattle.plan_nodes.specs.Operators.{OpMeaning, Ends, Each, item, flat, first_of, folded_of, sent_rows, next_from, end_count, end_part};

use column_batch::Batch;
use plan_machine::OpShape;
use scalar_value::{Mem, Seq};
use std::alloc::Global;
use std::thread::Threads;

/// What an operator gives for a batch that it streams: a batch of its output, and from where the output of the same
/// input batch goes on, or none where no row of it is left.
#[derive(Debug, Drop)]
pub struct Streamed {
    pub out: Batch,
    pub next: Option<u64>,
}

/// The work of one node of a plan on batches, as Acero's ExecNode.
///
/// Each worker has a local part, which stands for the batches that it took, and all workers share a part, which stands
/// for the rows that the node gathered and, once the streamed input has ended, for the batches that it streamed. An
/// input's batches have columns of the types that the operator was made for. No call looks at the number of workers. A
/// call that the operator's shape doesn't have is never made, and what it answers means nothing.
pub trait Operator: Send + Sync + Drop {
    type Local: Send + Drop;

    type Shared: Send + Sync + Drop;

    /// What the operator computes, on whole lists of rows.
    ghost meaning: { Self → OpMeaning };

    /// The batches, with columns of these types, that a local part stands for, of an operator of this meaning. What was
    /// folded has the gathered input's columns, and what was streamed those of the streamed input.
    ghost local_is: { OpMeaning → List ColType → Self.Local → List (Item (List Value)) → Type 0 };

    /// The gathered rows and the streamed batches that a shared part stands for.
    ghost shared_is: { OpMeaning → List (List ColType) → Self.Shared → List (List Value) → List (Item (List Value)) → Type 0 };

    /// Whether it gathers an input, gives rows for each batch of an input, and gives rows at its end.
    fn shape(&self) -> OpShape
        ensures { result ≡ (meaning self.now).shape };

    /// For a fetch how many rows from the front it wants to see, and none for any other operator.
    fn wanted(&self) -> Option<u64>
        ensures { result ≡ (meaning self.now).wanted };

    /// A local part that stands for no batch.
    fn local(&self, alloc: Global) -> Mem<Self::Local>
        ensures { (kinds : List ColType) → IfOk result (λ made. local_is (meaning self.now) kinds made []) };

    /// A shared part that stands for no rows and no batches.
    fn begin(&self, alloc: Global) -> Mem<Self::Shared>
        ensures { (inputs : List (List ColType)) → IfOk result (λ made. shared_is (meaning self.now) inputs made [] []) };

    /// Adds a batch of the gathered input to a local part. After a refusal the part holds anything of its type.
    fn fold(&self, alloc: Global, local: &mut Self::Local, batch: Batch) -> Mem<()>
        requires { (inputs : List (List ColType)) × (taken : List (Item (List Value)))
            × IsTrue ((meaning self.now).fits inputs)
            × local_is (meaning self.now) (folded_of (meaning self.now) inputs) local.old taken
            × (batch.kinds ≡ folded_of (meaning self.now) inputs) }
        ensures { (meaning self.now).shape.folds ≡ true
            → (inputs : List (List ColType)) (taken : List (Item (List Value)))
            → IsTrue ((meaning self.now).fits inputs)
            → local_is (meaning self.now) (folded_of (meaning self.now) inputs) local.old taken
            → batch.kinds ≡ folded_of (meaning self.now) inputs
            → OnOk result (local_is (meaning self.now) (folded_of (meaning self.now) inputs) local.new (taken ++ item batch 0 ∷ [])) };

    /// What all local parts gathered, in the order of the batches' indexes, or as they stand where they have none.
    fn seal<R: Threads + Sync>(
        &self,
        rt: &R,
        alloc: Global,
        locals: Seq<Self::Local>,
    ) -> Mem<Self::Shared>
        requires { (inputs : List (List ColType)) × (lists : List (List (Item (List Value))))
            × IsTrue ((meaning self.now).fits inputs)
            × Each (local_is (meaning self.now) (folded_of (meaning self.now) inputs)) locals lists }
        ensures { (meaning self.now).shape.folds ≡ true
            → (inputs : List (List ColType)) (lists : List (List (Item (List Value))))
            → IsTrue ((meaning self.now).fits inputs)
            → Each (local_is (meaning self.now) (folded_of (meaning self.now) inputs)) locals lists
            → IfOk result (λ made. shared_is (meaning self.now) inputs made (gathered (flat lists)) []) };

    /// The rows that a batch of the streamed input gives, from row `from` of its output on, and its addition to a local
    /// part. What is cut comes in batches of the operator's size. Where it is not cut, `from` is 0.
    fn stream(
        &self,
        alloc: Global,
        shared: &Self::Shared,
        local: &mut Self::Local,
        batch: &Batch,
        from: u64,
    ) -> Mem<Streamed>
        requires starts { ((meaning self.now).cuts ≡ true) ⊎ (from ≡ 0) }
        requires stands { (inputs : List (List ColType)) × (built : List (List Value)) × (taken : List (Item (List Value)))
            × IsTrue ((meaning self.now).fits inputs)
            × shared_is (meaning self.now) inputs shared.now built []
            × local_is (meaning self.now) (first_of inputs) local.old taken
            × (batch.now.kinds ≡ first_of inputs) }
        ensures { (meaning self.now).shape.streams ≡ true
            → (inputs : List (List ColType)) (built : List (List Value)) (taken : List (Item (List Value)))
            → IsTrue ((meaning self.now).fits inputs)
            → shared_is (meaning self.now) inputs shared.now built []
            → local_is (meaning self.now) (first_of inputs) local.old taken
            → batch.now.kinds ≡ first_of inputs
            → IfOk result (λ given.
            local_is (meaning self.now) (first_of inputs) local.new (taken ++ item batch.now from ∷ [])
            × (given.out.rows ≡ sent_rows (meaning self.now) built batch.now.rows from)
            × (given.out.kinds ≡ (meaning self.now).columns inputs)
            × (given.next ≡ next_from (meaning self.now) built batch.now.rows from)) };

    /// What the operator has gathered, and all that the local parts streamed.
    fn close<R: Threads + Sync>(
        &self,
        rt: &R,
        alloc: Global,
        shared: &Self::Shared,
        locals: Seq<Self::Local>,
    ) -> Mem<Self::Shared>
        requires { (inputs : List (List ColType)) × (built : List (List Value)) × (lists : List (List (Item (List Value))))
            × IsTrue ((meaning self.now).fits inputs)
            × shared_is (meaning self.now) inputs shared.now built []
            × Each (local_is (meaning self.now) (first_of inputs)) locals lists }
        ensures { (meaning self.now).shape.streams ≡ true
            → (meaning self.now).shape.tails ≡ true
            → (inputs : List (List ColType)) (built : List (List Value)) (lists : List (List (Item (List Value))))
            → IsTrue ((meaning self.now).fits inputs)
            → shared_is (meaning self.now) inputs shared.now built []
            → Each (local_is (meaning self.now) (first_of inputs)) locals lists
            → IfOk result (λ made. shared_is (meaning self.now) inputs made built (flat lists)) };

    /// How many batches of the operator's size hold the rows that it gives at its end.
    fn tails(&self, shared: &Self::Shared) -> u64
        requires { (inputs : List (List ColType)) × (built : List (List Value)) × (streamed : List (Item (List Value)))
            × IsTrue ((meaning self.now).fits inputs)
            × shared_is (meaning self.now) inputs shared.now built streamed }
        ensures { Ends (meaning self.now)
            → (inputs : List (List ColType)) (built : List (List Value)) (streamed : List (Item (List Value)))
            → IsTrue ((meaning self.now).fits inputs)
            → shared_is (meaning self.now) inputs shared.now built streamed
            → result ≡ end_count (meaning self.now) built streamed };

    /// Batch k of them, counted from 0.
    fn tail(&self, alloc: Global, shared: &Self::Shared, k: u64) -> Mem<Batch>
        requires { (inputs : List (List ColType)) × (built : List (List Value)) × (streamed : List (Item (List Value)))
            × IsTrue ((meaning self.now).fits inputs)
            × shared_is (meaning self.now) inputs shared.now built streamed }
        ensures { Ends (meaning self.now)
            → (inputs : List (List ColType)) (built : List (List Value)) (streamed : List (Item (List Value)))
            → IsTrue ((meaning self.now).fits inputs)
            → shared_is (meaning self.now) inputs shared.now built streamed
            → k < end_count (meaning self.now) built streamed
            → IfOk result (λ made.
            (made.rows ≡ end_part (meaning self.now) built streamed k)
            × (made.kinds ≡ (meaning self.now).columns inputs)) };
}
