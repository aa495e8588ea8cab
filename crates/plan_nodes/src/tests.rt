//! Tests of nodes, and of the operators' trait through two small operators.
mod gather;
mod join;
mod nodes;
