// Laws of soft values, correlations and distances: crate rules, specs/Soft.antt and Distance.antt. Laws alone, no code.
#![tactic(auto)]
