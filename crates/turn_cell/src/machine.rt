//! What is stepped in turns.
ghost use Rattle.std.specs.Prelude.{◌≡◌, ◌≢◌, ℕ, List, length, Option, Some};

/// A machine with a history of entries. What it is at any time is the replay of its history from its job: the opening state of the job, and then one step for each entry.
///
/// That the fields of a machine stand for that state is kept by the machine's own type. The calls of a cell speak of its job and its history.
pub trait Machine: Send + Drop {
    /// One step of the machine, as it stands in the history.
    type Entry: Copy;

    /// What the machine was made for. No step changes it.
    ghost Job: { Type 0 };

    /// What a history makes of a job.
    ghost State: { Type 0 };

    /// The part of a state that belongs to one number.
    ghost Part: { Type 0 };

    ghost job: { Self → Job };

    /// All entries so far, the oldest first.
    ghost history: { Self → List Self.Entry };

    /// The state before the first entry.
    ghost opening: { Job → State };

    /// The state after one entry more. An entry that is not enabled leaves the state as it was.
    ghost after: { Job → State → Self.Entry → State };

    /// The number that an entry belongs to, or none.
    ghost owner: { Self.Entry → Option ℕ };

    /// The part of a state that belongs to a number.
    ghost own: { State → ℕ → Part };

    /// The number of entries in the history.
    fn length(&self) -> u64
        ensures { result ≡ length (history self.now) };

    /// A step leaves the part of each number that its entry does not belong to as it was.
    ghost keeps_others: { (j : Job) (s : State) (e : Self.Entry) (n : ℕ) → owner e ≢ Some n → own (after j s e) n ≡ own s n };
}
