// Facts of every state that a run of a model reaches.

#![tactic(auto)]
