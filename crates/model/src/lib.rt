// Document 01's definitions over the types of crate types, in specs/, and the tables that compute them, in proofs/. There is no
// code here.
#![tactic(auto)]
