// The C edge: the ten calls of include/zrv.h, `extern "C"`, on numbers and byte ranges (document 01: "The host driver is written in C and calls mount,
// write, flush, reset and read with numbers and byte ranges; state and tables pass as bytes"). Each returns its answer in the low 32 bits: 0 finished, 1 to 19
// the refusal's number, 255 unfinished. In the high 32 a look and a mount tell the place of a bad log, a report its number of descriptors; else they are 0.
// Each reads its input, makes the call (volume's, mounting's or compacting's) on scratch for the two tables, and hands back what that leaves. Beside them `segments` has the
// read of a segment with grouped stripes, and `version` the interface's version.
#![tactic(auto)]

pub mod input;
pub mod reading;
pub mod records;
pub mod reporting;
pub mod segments;
pub mod starting;
pub mod state;
pub mod version;
pub mod words;
pub mod writing;
