use verb_types::VerbKind;

/// The first fault of a script's assignments and pipelines, in the order of their evaluation, and the byte place where it
/// stands.
#[derive(Debug, Clone, Copy, PartialEq, Eq)]
pub struct EvaluationFault {
    pub kind: EvaluationKind,
    pub at: u32,
}

/// What is wrong: a fault of a verb's call or of a pipeline's table, or a plan of more than 256 nodes.
#[derive(Debug, Clone, Copy, PartialEq, Eq)]
pub enum EvaluationKind {
    Verb(VerbKind),
    PlanTooLarge,
}
