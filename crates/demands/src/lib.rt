// What the client is owed, theorem by theorem: specs/Demands.antt.
#![tactic(auto)]
