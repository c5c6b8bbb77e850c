// Claims about bank files beside those of `alf_bank` (02, card 6): how much of a file decides its answer, and that who asks for one
// offending cross-component filter of its bank after the other gets those of its offending fields in file order. Definitions (specs/) and
// claims (proofs/), no code: they stand apart from the definitions of `alf_bank`, whose check every edit of a definition pays for.
#![tactic(auto)]
