// What a log of the unbounded queue never shows, proved. No code.
#![tactic(auto)]
