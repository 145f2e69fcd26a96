// Mathematics only: the program itself is fair, whatever it reads, proved in proofs/. No program needs this crate to run.
#![tactic(auto)]
