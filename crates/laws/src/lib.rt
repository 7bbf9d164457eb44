// Laws on lists, occurrences and rings. There is no code here.

#![tactic(auto)]
