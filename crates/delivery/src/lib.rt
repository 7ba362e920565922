// Theory without code: what a van has after any list of messages.
#![tactic(auto)]
