// What Load's refusals of a text mean, line by line: definitions and laws over the town file's, and no code.
#![tactic(auto)]
