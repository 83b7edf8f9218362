// Document 01's options, tables, answers and capacities as types and constants. What is right is said in specs/.
#![tactic(auto)]

pub mod answers;
pub mod tables;

// "The options stay one record with the float threshold in it."
#[repr(C)]
#[derive(Clone, Copy)]
pub struct Options {
    pub min: u32,
    pub max: u32,
    pub concurrent: u32,
    pub threshold: f32,
}

// "Capacities: 1 to 32 trees; 512 L0 rows and 512 runs over all trees; 64 jobs; 1,024 source entries over all jobs;
// options min, max, threshold (an f32) and at most 64 concurrent jobs"
pub const MAX_TREES: usize = 32;

pub const MAX_L0: usize = 512;

pub const MAX_RUNS: usize = 512;

pub const MAX_JOBS: usize = 64;

pub const MAX_SOURCES: usize = 1024;

pub const MAX_CONCURRENT: u32 = 64;

// The run number at which fresh numbers stop.
pub const LAST_RUN: u32 = 4294967295;
