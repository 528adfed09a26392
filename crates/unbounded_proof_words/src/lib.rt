// The words of a position of the unbounded queue, and how a machine stands for a queue over positions. Proofs only.
#![tactic(auto)]
