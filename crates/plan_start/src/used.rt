// The ids that jobs use, in the table of used ids: slatedb's ConflictChecker as it is made from the jobs.
ghost use Rattle.std.specs.Prelude.{◌≡◌, ◌+◌, ◌*◌, ◌<◌, ◌≤◌, length, get_or};
ghost use Rattle.rules.specs.Lent.{LentJobs, rows_from, source_at, job_at};
ghost use Rattle.rows.specs.InSlices.{jobs_in};
ghost use Rattle.plan_start.specs.UsedByJobs.{source_keys, job_keys, AddedAll, JobRoom, UsedByJobs};

use rows::jobs::Jobs;
use rows::sources::Sources;
use rules::tables::{Kind, SourceId, Status};
use tree_pick::conflict::UsedIds;

// The keys of `count` source entries from entry `at` on.
fn add_sources(used: &mut UsedIds, prefix: u32, sources: &Sources, at: usize, count: usize)
    requires { (used.old.count + count ≤ length used.old.keys.now) × (at + count ≤ length sources.now.marks.now) × (at + count ≤ length sources.now.runs.now) × (2 * (at + count) ≤ length sources.now.views.now) }
    ensures { AddedAll used.old (source_keys prefix (rows_from (source_at sources.now.marks.now sources.now.runs.now sources.now.views.now) at count)) used.new }
{
    for k in 0..count {
        used.add(prefix, sources.at(at + k).id());
    }
}

// The keys of job i, whose source entries begin at entry `at`: of its sources, and where it is tiered of its destination.
#[tactic(auto, using(crate::proofs::JobKeys::job_turns))]
fn add_job(used: &mut UsedIds, jobs: &Jobs, i: usize, at: usize)
    requires { (used.old.count + get_or jobs.now.specs.now (3 * i + 2) 0 + 1 ≤ length used.old.keys.now) × (2 * i + 1 < length jobs.now.marks.now) × (3 * i + 2 < length jobs.now.specs.now) × (at + get_or jobs.now.specs.now (3 * i + 2) 0 ≤ length jobs.now.sources.marks.now) × (at + get_or jobs.now.specs.now (3 * i + 2) 0 ≤ length jobs.now.sources.runs.now) × (2 * (at + get_or jobs.now.specs.now (3 * i + 2) 0) ≤ length jobs.now.sources.views.now) }
    ensures { AddedAll used.old (job_keys (job_at (jobs_in jobs.now) i at)) used.new }
{
    if jobs.marks[2 * i] > Status::Compacted as u8 {
        return;
    }
    let prefix = jobs.specs[3 * i];
    let count = jobs.specs[3 * i + 2] as usize;
    add_sources(used, prefix, &jobs.sources, at, count);
    if jobs.marks[2 * i + 1] == Kind::Drain as u8 {
        return;
    }
    used.add(prefix, SourceId::SortedRun(jobs.specs[3 * i + 1]));
}

// "Used ids of a tree: every source of its active jobs, and the destinations of its tiered ones, as run ids.": of all trees, by
// their prefixes, from the front of the table.
pub fn fill_used(jobs: &Jobs, used: &mut UsedIds)
    requires { JobRoom jobs.now (length used.old.keys.now) }
    ensures same { used.new.keys.ghost_name ≡ used.old.keys.ghost_name }
    ensures kept { length used.new.keys.now ≡ length used.old.keys.now }
    ensures uses { (j : LentJobs) → j.count ≡ jobs.now.count → j.job_marks ≡ jobs.now.marks.now → j.job_specs ≡ jobs.now.specs.now → j.source_marks ≡ jobs.now.sources.marks.now → j.source_runs ≡ jobs.now.sources.runs.now → j.source_views ≡ jobs.now.sources.views.now → UsedByJobs j used.new }
{
    used.count = 0;
    let mut at = 0;
    for i in 0..jobs.count {
        add_job(used, jobs, i, at);
        at += jobs.specs[3 * i + 2] as usize;
    }
}
