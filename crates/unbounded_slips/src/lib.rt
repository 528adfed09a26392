// Slips in the table of request 12, and the statement that is false of each. No code.
#![tactic(auto)]
