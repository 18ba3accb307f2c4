// The library for programs in other languages: opening, feeding and closing over numbers and slices. include/clocktoad.h declares it for C.
#![tactic(auto)]

pub mod calls;
pub mod sizes;
