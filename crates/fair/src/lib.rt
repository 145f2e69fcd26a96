// Mathematics only: the promises of fairness, proved of the rule in proofs/. No program needs this crate to run.
#![tactic(auto)]
