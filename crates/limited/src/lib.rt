// What two verdicts by two settings of the rules have to do with each other, and cases of the limited verdict. It has no function: the call itself is the
// verdict's own, `zuwendryk_limited_verdict` in crate `verdict`. specs/ and proofs/ are the crate.

#![tactic(auto)]
