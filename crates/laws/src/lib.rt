// Laws of the machine's definitions that the proofs of other crates cite: bits, tests, kinds by number, what code 0 tells. There is no code here.
#![tactic(auto)]
