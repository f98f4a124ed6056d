// The type of what reading back answers, and the letters of strings as entries. No function stands here: specs/ has the
// definitions, over this type.

#![tactic(auto)]

use grammar::Cause;

// An entry is this unit times the letter's kind, and its number: a rule's, or a symbol's code.
pub const KIND_UNIT: u32 = 65536;

pub const OPENING: u32 = 1;

pub const CLOSING: u32 = 2;

pub const SYMBOL: u32 = 3;

// ( and ), before a rule's number.
pub const OPENS: u8 = 40;

pub const CLOSES: u8 = 41;

// How many letters the two strings have; or the refusal of the grammar's text, or of the lines, or that a row is too short, with
// the document's number and position.
#[derive(Drop)]
pub enum ReadBack {
    Read { left: usize, right: usize },
    GrammarRefused(Cause, usize),
    Refused(Cause, usize),
}
