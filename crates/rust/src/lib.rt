// No function: how the Rust (src/explain.rs of egg 0.11.0) finds a path, a distance and a flat proof, transcribed as definitions on values (specs/), and the
// theorems that document 01's are the same (proofs/TheRust.antt). The Rust itself is held to document 01 by its stored answers (tests/test_vectors, tests/test_definitions).
#![tactic(auto)]
