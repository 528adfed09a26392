// Slips in the table of src/single.rs (specs/Slips.antt), and the statement of the demands that is false of each (specs/Refuted.antt). With no slip
// planted the demands stand (proofs/Faithful.antt). No code.
#![tactic(auto)]
