// Whole pictures worked out by the definitions of `alf_spec`: claims only (proofs/), no code. They take the checker seconds each, so they
// stand apart from the definitions, whose check every edit of a definition pays for.
#![tactic(auto)]
