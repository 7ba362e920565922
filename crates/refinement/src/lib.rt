// Theory without code: the calls on bytes do what the plain machine does.
#![tactic(auto)]
