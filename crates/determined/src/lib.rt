// Each contract determines its function's result: called twice on the same inputs, a function gives the same answer, and memory that
// was lent with the same contents ends with the same contents. That is proved from the contracts alone, since this crate sees
// nothing else. There is a module for each crate whose functions are called.
// Kept: each function writes its two calls out. A generic function that calls a closure twice was proved for those that lend no memory; for those that
// write into two buffers it is none, and the crate's check took 230 s of processor time in place of 58.
#![tactic(auto)]

pub mod of_delay;
pub mod of_machine;
pub mod of_plan_text;
pub mod of_planner;
pub mod of_probe;
pub mod of_put;
pub mod of_records;
pub mod of_superframe;
pub mod of_text;
