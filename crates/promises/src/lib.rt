// Theorems only: what one event may do and when it is refused, over the rules in lock's specs. specs/Statements.antt
// has the statements, proofs/Theorems.antt that they hold; docs/PROMISES.md says each in a sentence.
#![tactic(auto)]
