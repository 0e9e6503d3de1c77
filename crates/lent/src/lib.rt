// The laws for records lent by `&mut` and for slices of records, in proofs/. It has no code.
#![tactic(auto)]
