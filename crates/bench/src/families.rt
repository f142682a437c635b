// The program's own part: the calls that touch nothing that is held, and have no family in the crate `calls`. Proved
// safe, with no equations: docs/EXCEPTIONS.md says why.
pub mod instants;
pub mod mappings;
