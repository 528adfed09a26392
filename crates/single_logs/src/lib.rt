// What a log of the one-slot queue never shows: the statement (specs/). No code.
#![tactic(auto)]
