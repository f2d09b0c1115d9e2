// Mathematics only: terms, equality modulo exclusive or, derivations, and elimination. It has no function; specs/ and proofs/ are the crate.

#![tactic(auto)]
