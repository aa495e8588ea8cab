//! This function does nothing: it is its contract.
ghost use Rattle.table_round_trip.specs.RoundTrip.{PrintedIsRead};

/// A table that is printed as CSV, with 1 to 1,024 named columns and no text that reads as something else, is read back as
/// the same columns and rows.
pub fn printed_is_read()
    ensures { PrintedIsRead }
{}
