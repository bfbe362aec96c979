// Document 01 as definitions (specs/) and theorems about them (proofs/). Of code there are only the types that definitions and programs share.
#![tactic(auto)]

use literal::{ClauseNumber, Literal};

// What a rule asks: a dead end, or that an open literal becomes another.
#[derive(Clone, Copy)]
pub enum Step {
    DeadEnd,
    Becomes(Literal, Literal),
}

// A step, and the clause that asks it, of a pair the later one.
#[derive(Clone, Copy)]
pub struct Asked {
    pub clause: ClauseNumber,
    pub step: Step,
}

// The commands of a strip.
#[derive(Clone, Copy, PartialEq, Eq)]
pub enum Mark {
    Placements,
    Chapter,
    Opens,
    Taken,
    LeftOut,
    Closes,
    Ends,
}

// Where a strip is read: before the placements, outside a group, inside one, after the end.
#[derive(Clone, Copy, PartialEq, Eq)]
pub enum Turn {
    Start,
    Outside,
    Inside,
    After,
}

// "a command gives its mark and operand", and the index of the next one.
#[derive(Clone, Copy)]
pub struct Command {
    pub mark: Mark,
    pub operand: u16,
    pub next: usize,
}

// The numbers that are kept of what has been read: placements, opened groups and entries, over the whole filing.
#[derive(Clone, Copy)]
pub struct Progress {
    pub turn: Turn,
    pub variables: u16,
    pub clauses: u16,
    pub literals: u16,
}

// What a command does that is not refused: the numbers after it, and the element that it stores in the table, where it stores one.
#[derive(Clone, Copy)]
pub struct Obeyed {
    pub progress: Progress,
    pub stored: Option<i16>,
}
