// Document 01's words, slots and places as a picture of the ring over claim numbers (proofs/Stamps.antt: the words and their
// tests; Sight.antt: what each place stands for; Steps.antt: every act of the tables is an effect on the ring). Theorems alone.
#![tactic(auto)]
