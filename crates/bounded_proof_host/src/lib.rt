// What is to be believed of the host's face: statements over the words (specs/Hosted.antt), proved from those of the lent face (proofs/Hosted.antt); slips in the face (specs/Slips.antt), and for each the statement that it makes false. No code.
#![tactic(auto)]
