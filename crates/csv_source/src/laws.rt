ghost use Rattle.csv_source.specs.Records.{RecordsAreAll};

/// The law of the records that `read_table` speaks of: they are all records of the file, one behind the other.
pub fn records_are_all()
    ensures { RecordsAreAll }
{}
