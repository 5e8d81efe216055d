// Document 01's starred cases as one table, and one theorem that the contracts' definitions give what must come on every line. Definitions and a law only, no code.
#![tactic(auto)]
