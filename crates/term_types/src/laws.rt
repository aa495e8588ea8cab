//! The laws of terms. Each is a function that gives nothing: its contract is the law.
ghost use Rattle.term_types.specs.TermLaws.{TermsAreTyped, TermsAreTypedAs};

/// The expression that a term of a script is read as over some columns has, over those columns, the type that is told
/// with it.
pub fn terms_are_typed()
    ensures { TermsAreTyped }
{}

/// The part that a term of a script is read as over some columns has, over those columns, the type that is told of it,
/// whichever type is needed of a part that missing values alone decide.
pub fn terms_are_typed_as()
    ensures { TermsAreTypedAs }
{}
