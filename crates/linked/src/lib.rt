// Theorems only: what a program may rely on that is linked with the exported calls. They are stated
// in specs/ and proved in proofs/.
#![tactic(auto)]
