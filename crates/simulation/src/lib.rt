// Demand 3: the table made from a model and the model take the same events and show equal states.

#![tactic(auto)]
