#![tactic(auto)]

// The meaning of a table: rows, their layers, undamaged layers and the rows that they hold. Definitions and laws only, no code, and no
// port: it is written from document 01.
//
// It promises that layers and rows determine each other (proofs/Tables.antt): every undamaged table is what a build of its own rows leaves, the layers of
// a set of rows are undamaged and hold it, and equal rows have equal layers.
