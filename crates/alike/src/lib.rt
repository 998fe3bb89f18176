// Captures that differ only in addresses are judged alike. There is no code here.
#![tactic(auto)]
