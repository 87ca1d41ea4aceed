// Theorems only: an invariant of the lock, that a fresh machine has it and that every event keeps it, over the rules in
// lock's specs. Read specs/Table.antt and specs/Invariant.antt first; specs/Lib.antt explains the words, and
// docs/PROMISES.md says how the files follow.
#![tactic(auto)]
