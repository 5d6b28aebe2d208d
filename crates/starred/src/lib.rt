// The reckonings that document 01 marks with a star: a list and the claim that each holds, in specs/, and its proof. There is no code.
#![tactic(auto)]
