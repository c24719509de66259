// Laws of labels and words: crate rules, specs/Label.antt and Word.antt. Laws alone, no code.
#![tactic(auto)]
