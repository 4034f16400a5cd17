// Document 01's cases as calls on bytes, and the idle desks shut out: definitions and theorems; no code of its own.
#![tactic(auto)]
