//! What holds of the meaning of verbs, whatever the tables. These functions do nothing: each is its contract.
ghost use Rattle.verb_meaning.specs.Laws.{SameOfSame, TableOfTable};

/// Of the same tables an accepted verb gives the same tables, and of a table a table.
pub fn verbs_keep_sameness()
    ensures same { SameOfSame }
    ensures table { TableOfTable }
{}
