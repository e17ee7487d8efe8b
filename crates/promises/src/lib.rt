// What is promised of the machine: the statements are in specs/, their proofs in proofs/. There is no code here.
#![tactic(auto)]
