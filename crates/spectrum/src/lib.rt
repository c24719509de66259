// Laws of the spectrum and its stages: crate rules, specs/Spectrum.antt. Laws alone, no code.
#![tactic(auto)]
