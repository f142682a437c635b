// The customer's demands, as theorems over the definitions that the public entries' contracts cite. There is no code
// here. Demand 1: specs/Entries, Conditions, Order and Limits (the limits of the refusals), proofs/Exactly and Refused.
// Demand 2: specs/Rows (the worked rows), proofs/Useful. Demand 3: specs/Events, Kinds and Served, proofs/ServedOnTime.
// Motors that never share a clock: proofs/Morning; no NaN: proofs/NoNan.

#![tactic(auto)]
