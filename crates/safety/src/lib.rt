// Theorems only: what holds of every machine that any list of events leads to from a fresh one. specs/Statements.antt
// has the statements, proofs/Theorems.antt that they hold; docs/PROMISES.md says each in a sentence.
#![tactic(auto)]
