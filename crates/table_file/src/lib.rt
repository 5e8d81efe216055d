// What a table file is: its bytes (`fileOf`) and the table that bytes are (`parse`), specs/File.antt. Definitions and laws only, no code, and no port: it is
// written from requests 1 and 8 of document 02.
//
// It promises that the two undo each other, so that one table has one file (proofs/Laws.antt), and says where a row lies (proofs/Places.antt).

#![tactic(auto)]
