// What is promised of logs by what is promised of the machine: statements in specs/, proofs in proofs/. There is no code here.
#![tactic(auto)]
