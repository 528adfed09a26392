// What a log of lent records, and of words in a host's memory, never shows: proved. No code.
#![tactic(auto)]
