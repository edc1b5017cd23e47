// What is enabled is the same of a model and of the table made from it: at the start, and after every event.

#![tactic(auto)]
