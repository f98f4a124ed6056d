// The types of what is told of a row of terminals, and its limit. No function stands here: specs/ has the definitions, and the crate
// sentence_trees has the code.

#![tactic(auto)]

use grammar::Cause;

// The most terminals of a row: document 02, [12]; specs/Trees.antt has the same number.
pub const MAX_ROW: usize = 64;

// The gaps before, between and after so many terminals.
pub const PLACES: usize = MAX_ROW + 1;

// None, one with the number of its rules, or several; or a refusal with a cause and its position.
#[derive(Drop)]
pub enum TreesFound {
    Nothing,
    One(usize),
    Several,
    Refused(Cause, usize),
}

// The entries of the work row; or the table's first refusal.
#[derive(Drop)]
pub enum TreesRoom {
    Entries(usize),
    Refused(Cause, usize),
}
