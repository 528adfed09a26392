// That the numbers said of the unbounded queue are attained, computed at full size: each refusal's, and the most acts that a push and a pop need alone (proofs/). No code.
#![tactic(auto)]
