// One event by the deadlines: which rule it breaks, and what it leaves. There is no code here.
#![tactic(auto)]
