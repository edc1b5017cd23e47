// The starred examples of document 01, proved over the definitions.

#![tactic(auto)]
