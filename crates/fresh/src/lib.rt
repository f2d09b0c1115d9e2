// What an intruder can derive who also starts with atoms of his own making (document 02, E14), of every verdict. It has no function: the calls are those of
// crate `verdict`. specs/ and proofs/ are the crate.

#![tactic(auto)]
