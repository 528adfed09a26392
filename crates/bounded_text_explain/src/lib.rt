// The ring's acts in plain words: where a worker stood and stands by the codes of bounded_codes, the ring's words, claims counted. docs/GUIDE.md has the table of the sentences.
#![tactic(auto)]

pub mod acts;
