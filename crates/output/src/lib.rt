// What it means to write bytes into an output: the definition is in specs/, its laws in proofs/. No function.
#![tactic(auto)]
