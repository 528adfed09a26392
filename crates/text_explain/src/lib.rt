// What the lines of a run in plain words (replay --explain) share: columns, colours, words; knows no queue. docs/GUIDE.md has the sentences.
#![tactic(auto)]

pub mod columns;
pub mod terminal;
pub mod waiting;
pub mod words;
