// Every contract settles its function's outcome: the theorems of proofs/, one for each public function of the crates
// below. specs/Outcomes.antt says what that means. There is no code here.
#![tactic(auto)]
