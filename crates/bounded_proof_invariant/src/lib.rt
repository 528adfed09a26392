// The ring over claim numbers (proofs/Width.antt: the word of a claim; Ring.antt: what a ring holds and a worker relies on;
// Effects.antt: what an act does to it, and that each effect keeps the invariant). Theorems alone.
#![tactic(auto)]
