// The expansion over any floor (document 01, "Expansion"; document 02, A14): definitions and laws, no code.
#![tactic(auto)]
