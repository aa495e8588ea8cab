ghost use Rattle.std.specs.Prelude.{◌≡◌, ◌≤◌, List, ℕ, Option, Some, length, IfOk, OnOk, OnErr, IsSome};
ghost use Rattle.outside_io.specs.Counts.{FailedAt, NoneRose, NoneFell};
ghost use Rattle.outside_io.specs.Outside.{Held, ReadsFrom, OthersKept};

/// A read or a write failed. The count of its object's faults says so too.
#[derive(Debug, Clone, Copy, PartialEq, Eq)]
pub struct Failed;

/// Files that are read by name, as a folder.
pub trait Files {
    /// The bytes of each file, where they are told.
    ghost held: { Self → Option Held };

    /// How many calls failed. The count never falls, and ends at 2^64 - 1.
    ghost faults: { Self → ℕ };

    /// How many calls on this name failed, where it is told.
    ghost faults_of: { Self → List ℕ → Option ℕ };

    /// Reads the file's bytes from place `at` on into the front of `into`, and answers how many it read: 0 for an
    /// `into` that is not empty only at or behind the end of the file. A name that is not there fails.
    fn read(&mut self, name: &str, at: u64, into: &mut [u8]) -> Result<usize, Failed>
        ensures within { IfOk result (λ n. n ≤ length into.new) }

        // Where the bytes are told, these are the bytes of the file.
        ensures bytes { IfOk result (λ n. ReadsFrom (held self.old) name.now at into.new n) }
        ensures held { held self.new ≡ held self.old }

        // It fails only where the count rose, and that of the name with it; else every count is as it was.
        ensures failed { OnErr result (FailedAt (faults_of self.old name.now) (faults_of self.new name.now) (faults self.old) (faults self.new)) }
        ensures kept { OnOk result (NoneRose (faults self.old) (faults self.new) (faults_of self.old) (faults_of self.new)) }
        ensures later { NoneFell (faults self.old) (faults self.new) (faults_of self.old) (faults_of self.new) }

        // It raises the count of no other file that is there.
        ensures others { OthersKept (held self.old) name.now (faults_of self.old) (faults_of self.new) };

    /// Where the bytes are told, so is the count of each name.
    ghost told: { (files : Self) (bytes : Held) (name : List ℕ) → held files ≡ Some bytes → IsSome (faults_of files name) };
}
