// Every call of the port, for C and Rust to link, by document 01's modules: thin functions over the proved crates, with
// their contracts. The declarations for C are in include/vayemuku.h. C takes columns and numbers one by one, so that no
// export has a struct.
#![tactic(auto)]

mod competitions;
mod discriminant;
mod elimination;
mod helpers;
mod lines;
mod posterior;
mod q_values;
