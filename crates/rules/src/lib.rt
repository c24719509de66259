// The rules of document 01 as definitions (specs/), and its known words proved of them (proofs/). No code.
#![tactic(auto)]
