// What calls do one after another, of their contracts: a build, inserts and removals, and a cursor over what they leave. Laws alone, no code.
#![tactic(auto)]
