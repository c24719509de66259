// Laws of the digits of a place: crate rules, specs/Place.antt. Laws alone, no code.
#![tactic(auto)]
