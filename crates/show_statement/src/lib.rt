// The printers of statements, which call each other.
#![tactic(auto)]

pub mod statement;
