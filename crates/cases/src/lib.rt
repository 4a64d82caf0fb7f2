// Document 01's ten cases, a case for every number, for every total and every word, the listings, the pages, decoded sound, the steps of the
// register block, the small file cut to every length, and reads and jumps on one that is cut: specs/ states them, proofs/ proves them.
#![tactic(auto)]
