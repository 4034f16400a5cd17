// The promise of a call, that no second outcome keeps it, and calls one after the other: definitions and theorems; no code of its own.
#![tactic(auto)]
