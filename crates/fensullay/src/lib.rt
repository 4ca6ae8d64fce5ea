// The C interface of the three libraries and the report: each function returns one number and writes its values into lent arrays. It holds for every
// table, tree, state number and length; `include/fensullay.h` declares it for C.
#![tactic(auto)]

mod numbers;
mod states;
mod table;
mod tree;
