// Laws over the definitions of the calls: what a refusal leaves, whom an id names over a run, what a call
// leaves alone, and what holds of every state that calls can reach: no NaN in a speed, a value or a phase,
// fractions in 0..1, speeds that can be read in the unit that they tween to. There is no code here: specs/ states
// it, and proofs/ shows it.

#![tactic(auto)]
