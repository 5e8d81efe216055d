#![tactic(auto)]

// A join by windows: what a call that starts or goes on after a given row does, in document 02's words, and that the pieces of calls that go on one after another are the
// whole listing. Laws of the contracts alone, no code.
