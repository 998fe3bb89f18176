// The demands, stated about what the public functions' contracts allow. There is no code here.
#![tactic(auto)]
