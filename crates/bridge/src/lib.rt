// What the judge keeps is enough: its deadlines are a summary of document 01's part. There is no code here.
#![tactic(auto)]
