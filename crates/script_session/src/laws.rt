ghost use Rattle.script_session.specs.Laws.{ScriptsAreRead};

/// A law of scripts: what a script is read as, by its tokens and the grammar. It is its one tree, or it has the fault
/// that is told, at the place that is told.
pub fn scripts_are_read()
    ensures { ScriptsAreRead }
{}
