// Laws of the distances between words: crate rules, specs/Word.antt and Distance.antt. Laws alone, no code.
#![tactic(auto)]
