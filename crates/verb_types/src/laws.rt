//! The law of checked calls. It is a function that gives nothing: its contract is the law.
ghost use Rattle.verb_types.specs.CheckLaws.{CheckedVerbsSuit};

/// The verb that the check of a call gives suits the shape, and the shape beside it is the one after the verb.
pub fn checked_verbs_suit()
    ensures { CheckedVerbsSuit }
{}
