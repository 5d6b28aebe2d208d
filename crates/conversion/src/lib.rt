// What the converters of town files write, and what that means: definitions and laws over the town file's, and no code.
#![tactic(auto)]
