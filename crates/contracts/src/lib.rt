// Theorems only, over the contracts themselves: of each public function of the libraries, that any two results which
// its contract allows are equal, and wrong answers that it rules out, computed. One file of specs/ for each crate;
// specs/Allowed.antt says how a contract is read.
#![tactic(auto)]
