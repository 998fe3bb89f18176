// A schedule replayed is the plain memory: demand 3, of document 01's definitions. There is no code here.
#![tactic(auto)]
