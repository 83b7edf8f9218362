// Retention: slatedb's retain_active_and_last_finished.
ghost use Rattle.std.specs.Prelude.{◌≡◌, not, ◌||◌, ◌*◌, ◌≤◌, leb, length};
ghost use Rattle.rules.specs.Calls.{retain_call};
ghost use Rattle.rows.specs.InSlices.{jobs_in};
ghost use Rattle.job_rows.specs.Table.{table_in, SameTables, SameLengths};
ghost use Rattle.compactor_state.specs.Retention.{finished_status, Retains};
ghost use Rattle.compactor_state.specs.Answers.{Answers};

use job_rows::table::JobTable;
use rows::jobs::Jobs;
use rules::answers::Refusal;
use rules::tables::Status;

// Whether a job is kept, where `seen` says that a later one is finished.
fn is_kept(status: u8, seen: bool) -> bool
    ensures { result ≡ leb status 3 || not seen }
{
    status <= Status::Compacted as u8 || !seen
}

// Whether this job or a later one is finished.
fn finished_from(status: u8, seen: bool) -> bool
    ensures { result ≡ finished_status status || seen }
{
    Status::Completed as u8 <= status && status <= Status::Failed as u8 || seen
}

// "Retention keeps active jobs and the finished job of largest id.": the flags of the jobs that are kept, from the last job to
// the first.
fn mark_retained(jobs: &Jobs) -> [u8; 64]
    requires { (jobs.now.count ≤ 64) × (2 * jobs.now.count ≤ length jobs.now.marks.now) }
    ensures { Retains (jobs_in jobs.now) result }
{
    let mut flags = [0; 64];
    let mut seen = false;
    for i in (0..jobs.count).rev() {
        let status = jobs.marks[2 * i];
        flags[i] = is_kept(status, seen) as u8;
        seen = finished_from(status, seen);
    }
    flags
}

// "Retention keeps active jobs and the finished job of largest id."
pub fn retain(jobs: &mut JobTable) -> Result<(), Refusal>
    ensures same { SameTables jobs.old jobs.new }
    ensures lengths { SameLengths jobs.old jobs.new }
    ensures answers { Answers (retain_call (table_in jobs.old)) result (table_in jobs.new) }
{
    let rows = jobs.rows();
    rows.check()?;
    let staying = mark_retained(&rows);
    jobs.keep(&staying);
    Ok(())
}
