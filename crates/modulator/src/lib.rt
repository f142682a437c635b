// One modulator of either kind, as modulator/tweener.rs and modulator/lfo.rs have them.
#![tactic(auto)]

pub mod lfo;
pub mod tweener;
