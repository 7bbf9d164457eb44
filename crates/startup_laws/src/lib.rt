// Theorems about the start-up: every run of the step machine from a set-up. No code, so that a change of the machine's own crate stays quick.

#![tactic(auto)]
