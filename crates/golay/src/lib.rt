// Laws of Golay pairs: crate rules, specs/Pair.antt, Autocorrelation.antt and Envelope.antt. Laws alone, no code.
#![tactic(auto)]
