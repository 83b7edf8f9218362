// Merging of remote jobs: slatedb's merge_remote_compactions, in two phases. In remote order and in place the table could pass
// 1,024 entries on the way though the result fits, and refusal 14 must be known before the first byte is written: so first what
// is taken and what stays is found out (`plan_merge`), then the table is changed.
ghost use Rattle.std.specs.Prelude.{◌≡◌};
ghost use Rattle.rules.specs.Answers.{refused};
ghost use Rattle.rules.specs.Lent.{lay_jobs, jobs_of};
ghost use Rattle.rules.specs.Jobs.{merged};
ghost use Rattle.rules.specs.Calls.{merge_call};
ghost use Rattle.rows.specs.InSlices.{jobs_in};
ghost use Rattle.job_rows.specs.Table.{table_in, SameTables, SameLengths};
ghost use Rattle.compactor_state.specs.Answers.{Answers};
ghost use Rattle.compactor_state.specs.MergeCall.{tables_refusal};
ghost use Rattle.compactor_state.specs.Taking.{CanTake, Took, CanTakeAll, TookAll, Ready};

use job_rows::table::{JobTable, NewJob};
use merging::plan::{MergePlan, plan_merge};
use rows::bounds::jobs_outside;
use rows::ids::ulid;
use rows::jobs::Jobs;
use rows::sources::Sources;
use rules::answers::Refusal;

// Takes remote job `i`, whose entries begin at entry `at`, if it has a flag: "remote record taken whole when adopted".
#[tactic(auto, using(crate::proofs::Taking::took_none))]
fn take_at(jobs: &mut JobTable, remote: &Jobs, taken: &[u8; 64], i: usize, at: usize)
    requires { CanTake (table_in jobs.old) (jobs_in remote.now) taken.now i at }
    ensures same { SameTables jobs.old jobs.new }
    ensures lengths { SameLengths jobs.old jobs.new }
    ensures took { Took (table_in jobs.old) (jobs_in remote.now) taken.now i at (table_in jobs.new) }
{
    if taken[i] == 0 {
        return;
    }
    let end = at + remote.specs[3 * i + 2] as usize;
    let job = NewJob {
        id: ulid(remote.ids, 2 * i),
        status: remote.marks[2 * i],
        drain: remote.marks[2 * i + 1],
        prefix: remote.specs[3 * i],
        destination: remote.specs[3 * i + 1],
        sources: Sources {
            marks: &remote.sources.marks[at..end],
            runs: &remote.sources.runs[at..end],
            views: &remote.sources.views[2 * at..2 * end],
        },
    };
    jobs.insert(&job);
}

// Takes the remote jobs that have a flag, in their order.
fn take_adopted(jobs: &mut JobTable, remote: &Jobs, taken: &[u8; 64])
    requires { CanTakeAll (table_in jobs.old) (jobs_in remote.now) taken.now }
    ensures same { SameTables jobs.old jobs.new }
    ensures lengths { SameLengths jobs.old jobs.new }
    ensures took { TookAll (table_in jobs.old) (jobs_in remote.now) taken.now (table_in jobs.new) }
{
    let mut at = 0;
    for i in 0..remote.count {
        take_at(jobs, remote, taken, i, at);
        at += remote.specs[3 * i + 2] as usize;
    }
}

// The change itself: the local jobs whose remote record is adopted go, then the adopted records come.
fn merge_rows(jobs: &mut JobTable, remote: &Jobs, plan: &MergePlan)
    requires { Ready (table_in jobs.old) (jobs_in remote.now) plan.now.taken plan.now.staying }
    ensures same { SameTables jobs.old jobs.new }
    ensures lengths { SameLengths jobs.old jobs.new }
    ensures merged { table_in jobs.new ≡ lay_jobs (table_in jobs.old) (merged (jobs_of (table_in jobs.old)) (jobs_of (jobs_in remote.now))) }
{
    jobs.keep(&plan.staying);
    take_adopted(jobs, remote, &plan.taken);
}

// "Merge: 1 and 2 on both job tables, ..": 1 of either comes before 2 of the other.
fn check_both(jobs: &Jobs, remote: &Jobs) -> Result<(), Refusal>
    ensures { refused result ≡ tables_refusal (jobs_in jobs.now) (jobs_in remote.now) }
{
    if jobs_outside(jobs.count, jobs.specs) {
        return Err(Refusal::OutOfBounds);
    }
    if jobs_outside(remote.count, remote.specs) {
        return Err(Refusal::OutOfBounds);
    }
    jobs.check()?;
    remote.check()
}

// The local jobs are changed, the remote ones only read. All is known before the first byte is written: "1 and 2 on both job tables,
// then 14".
pub fn merge(jobs: &mut JobTable, remote: &Jobs) -> Result<(), Refusal>
    ensures same { SameTables jobs.old jobs.new }
    ensures lengths { SameLengths jobs.old jobs.new }
    ensures answers { Answers (merge_call (table_in jobs.old) (jobs_in remote.now)) result (table_in jobs.new) }
{
    let rows = jobs.rows();
    check_both(&rows, remote)?;
    let plan = plan_merge(&rows, remote);
    plan.room?;
    merge_rows(jobs, remote, &plan);
    Ok(())
}
