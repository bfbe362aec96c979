// What holds between two steps of the engine, and what a step keeps, for the crates that make the steps.
#![tactic(auto)]

// A clause has two true literals, or none true and none open. Nothing is known of the state and the lists after it.
#[derive(Clone, Copy)]
pub struct DeadEnd;
