// What finish and drain find out before they change anything: the job and its tree, the rows that go, the output's place, the
// watermark.
#![tactic(auto)]

pub mod flagging;
pub mod output;
pub mod watermarks;
pub mod work;
