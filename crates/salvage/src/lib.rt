// The salvage run (document 02, request four) on any disk: definitions and laws only, in specs/. Its code is the crate `mend`.
#![tactic(auto)]
