// What a log of the one-slot queue never shows, proved. No code.
#![tactic(auto)]
