// Theorems only: the queue of waiters by tickets, under every access to a link, for any number of threads. Read
// specs/Queue.antt first.
#![tactic(auto)]
