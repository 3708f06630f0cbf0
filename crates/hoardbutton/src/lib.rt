// The library for C: the functions of include/hoardbutton.h. Each asks a crate under it and hands over the answer as a struct of numbers;
// specs/ says how. A caller owes that a pointer has as many elements as are said, and that lent buffers do not overlap.
#![tactic(auto)]

pub mod answers;
pub mod banks;
pub mod books;
pub mod controllers;
pub mod frames;
pub mod plays;
pub mod profiles;
pub mod radio;
pub mod readings;
pub mod reels;
pub mod shared;
