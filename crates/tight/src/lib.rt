// Theorems about the promises of the libraries that the C interface stands on. The statements are in specs, their proofs in proofs; there is no
// code.
#![tactic(auto)]
