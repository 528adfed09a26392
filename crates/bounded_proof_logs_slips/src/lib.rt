// Wrong tables of the ring, and the row that a log of each shows, by computing. No code.
#![tactic(auto)]
