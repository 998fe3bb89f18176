// The fixed schedule keeps every rule: laws about document 01's definitions of it. There is no code here.
#![tactic(auto)]
