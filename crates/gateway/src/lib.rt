// The outer face: every public call as a C function over plain structs and lent bytes (include/axle_gateway.h).
#![tactic(auto)]

mod completion;
mod decisions;
mod hash;
mod hash384;
mod hellos;
mod logs;
mod refusals;
mod secrets;
mod tables;
mod writers;
