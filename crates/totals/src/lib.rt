// Laws of totals: what the gains of a word add up to, and how the totals of all labels are had stage by stage. Laws
// and definitions alone, no code.
#![tactic(auto)]
