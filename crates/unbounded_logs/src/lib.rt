// What a log of the unbounded queue never shows: the statement (specs/). No code.
#![tactic(auto)]
