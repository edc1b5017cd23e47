// A list as a call leaves it stands for the model or the state that the call tells: laws for callers who prove. There is no function.

#![tactic(auto)]
