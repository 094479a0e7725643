// Laws of walks over ranges and lists, for the proofs of the other crates. The definitions are in specs/ and the laws
// in proofs/; there are no functions.
#![tactic(auto)]
