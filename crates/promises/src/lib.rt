// The theorems that a customer files with a pour. There is no code here.

#![tactic(auto)]
