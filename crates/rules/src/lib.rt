// The rule book: definitions and theorems; no code of its own.
#![tactic(auto)]
