// The picture of a state: definitions and theorems; no code of its own.
#![tactic(auto)]
