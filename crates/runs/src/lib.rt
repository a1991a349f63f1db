// Rows with their routes, and a door open and shut, over any floor (document 01, "Changing a door"): definitions and laws, no code.
#![tactic(auto)]
