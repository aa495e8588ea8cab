// The laws of the lone driver, which runs a plan on one worker. A law has nothing to run.

ghost use Rattle.plan_machine.specs.DriverLaws.{HistoryGrows, SomeEntryEnabled, DriverIsLegal, DriverIsAlone, DriverCanClaim, DriverGoesOn, DriverIsDetermined, DriverEnds};

/// What a history becomes by one more entry: its state, its peaks, and that it stays legal, or driven.
pub fn history_grows<R>()
    ensures { HistoryGrows R }
{}

/// The lone driver adds enabled entries alone, so that all laws of histories hold of its own.
pub fn driver_is_legal<R>()
    ensures { DriverIsLegal R }
{}

/// In a history of the lone driver no Fail came, and only worker 1 has a task.
pub fn driver_is_alone<R>()
    ensures { DriverIsAlone R }
{}

/// The plan alone determines the history that the lone driver gives.
pub fn driver_is_determined<R>()
    ensures { DriverIsDetermined R }
{}

/// With nothing in hand and no upkeep due, the lone driver can claim until the run has ended.
pub fn driver_can_claim<R>()
    ensures { DriverCanClaim R }
{}

/// Until the run has ended there is an entry that the lone driver adds.
pub fn driver_goes_on<R>()
    ensures { DriverGoesOn R }
{}

/// In each state that has neither ended nor failed, with nothing in flight, some entry is enabled.
pub fn some_entry_enabled<R>()
    ensures { SomeEntryEnabled R }
{}

/// The lone driver comes to the end of its run, after at most `most` entries.
pub fn driver_ends<R>()
    ensures { DriverEnds R }
{}

#[cfg(test)]
mod tests {
    use super::*;
    use crate::limits::{bounded, never_stuck, premises_can_be_met, stopping_premises_can_be_met};

    // each law at rows of one type
    #[test]
    fn laws_are_cited() {
        bounded::<u64>();
        never_stuck::<u64>();
        premises_can_be_met();
        stopping_premises_can_be_met();
        history_grows::<u64>();
        some_entry_enabled::<u64>();
        driver_is_legal::<u64>();
        driver_is_alone::<u64>();
        driver_is_determined::<u64>();
        driver_can_claim::<u64>();
        driver_goes_on::<u64>();
        driver_ends::<u64>();
    }
}
