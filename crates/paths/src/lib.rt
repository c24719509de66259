// Laws of paths: crate rules, specs/Path.antt. Laws alone, no code.
#![tactic(auto)]
