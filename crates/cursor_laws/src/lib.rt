#![tactic(auto)]

// What holds of the cursor's calls beside their contracts: each number exactly when document 01 says, and that no call reads outside the table.
// Definitions and laws alone, no code.
