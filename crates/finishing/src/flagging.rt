// The flags of all rows in use, for one job and its tree: 0 for the rows that go.
ghost use Rattle.std.specs.Prelude.{◌≡◌, ◌+◌, ◌*◌, ◌≤◌, List, length, get_or};
ghost use Rattle.std.proofs.Math.Seq.{paste};
ghost use Rattle.rules.specs.declared.tables.SourceId.{SourceId};
ghost use Rattle.rules.specs.declared.tables.SourceId.TheVariants.{SortedRun, SstView};
ghost use Rattle.rules.specs.Tables.{among, mark_of};
ghost use Rattle.rules.specs.Lent.{rows_from, ulid_at};
ghost use Rattle.rows.specs.InSlices.{trees_in, jobs_in};
ghost use Rattle.finishing.specs.Finding.{names_at, gone_with, gone_beside, flag_of, SourceRoom};
ghost use Rattle.finishing.specs.Flagging.{TreeRoom, JobRoom, Unflagged, Flags};

use rows::ids::ulid;
use rows::jobs::Jobs;
use rows::read::JobRows;
use rows::sources::Sources;
use rows::trees::Trees;
use rules::tables::{Kind, SourceId};

// Whether one of a job's source entries names this run or view.
pub fn is_source(sources: &Sources, entries: JobRows, id: SourceId) -> bool
    requires { SourceRoom sources.now entries }
    ensures { result ≡ among id (names_at sources.now entries) }
{
    for i in entries.first..entries.first + entries.count {
        if sources.at(i).id() == id {
            return true;
        }
    }
    false
}

// The destination that goes with the sources: that of a tiered job.
fn destination_of(kind: Kind, destination: u32) -> Option<u32>
    ensures { (names : List SourceId) → gone_beside result names ≡ gone_with (mark_of kind) destination names }
{
    if kind == Kind::Drain {
        return None;
    }
    Some(destination)
}

// "remove .. source runs and the destination run"
fn run_goes(sources: &Sources, entries: JobRows, destination: Option<u32>, run: u32) -> bool
    requires { SourceRoom sources.now entries }
    ensures { result ≡ among (SortedRun run) (gone_beside destination (names_at sources.now entries)) }
{
    if is_source(sources, entries, SourceId::SortedRun(run)) {
        return true;
    }
    match destination {
        Some(destination) => destination == run,
        None => false,
    }
}

// A flag of 0 takes a row out.
fn flag(goes: bool) -> u8
    ensures { result ≡ flag_of goes }
{
    if goes {
        return 0;
    }
    1
}

// The flags of `rows` L0 rows from row `first` on: those that are sources go.
pub fn flag_rows(
    l0_ids: &[u64],
    first: usize,
    rows: usize,
    sources: &Sources,
    entries: JobRows,
    kept: &mut [u8],
)
    requires { SourceRoom sources.now entries × (4 * (first + rows) ≤ length l0_ids.now) × (first + rows ≤ length kept.old) }
    ensures { kept.new ≡ paste kept.old first (rows_from (λ k. flag_of (among (SstView (ulid_at l0_ids.now (4 * k))) (names_at sources.now entries))) first rows) rows }
{
    for k in 0..rows {
        let i = first + k;
        let view = SourceId::SstView(ulid(l0_ids, 4 * i));
        kept[i] = flag(is_source(sources, entries, view));
    }
}

// The flags of `runs` runs from run `first` on: those that are sources go, and the destination of a tiered job.
pub fn flag_runs(
    run_ids: &[u32],
    first: usize,
    runs: usize,
    sources: &Sources,
    entries: JobRows,
    destination: Option<u32>,
    kept: &mut [u8],
)
    requires { SourceRoom sources.now entries × (first + runs ≤ length run_ids.now) × (first + runs ≤ length kept.old) }
    ensures { kept.new ≡ paste kept.old first (rows_from (λ k. flag_of (among (SortedRun (get_or run_ids.now k 0)) (gone_beside destination (names_at sources.now entries)))) first runs) runs }
{
    for k in 0..runs {
        let i = first + k;
        kept[i] = flag(run_goes(sources, entries, destination, run_ids[i]));
    }
}

// Every row of the other trees stays. The flags are lent with 1 for each row, in two slices as `TreeTable::keep_rows` takes them:
// what that promises is of flags of any length, so that they are no struct of arrays.
pub fn flag_tree(
    trees: &Trees,
    jobs: &Jobs,
    job: usize,
    tree: usize,
    kind: Kind,
    l0_kept: &mut [u8],
    runs_kept: &mut [u8],
)
    requires { TreeRoom (trees_in trees.now) tree × JobRoom (jobs_in jobs.now) job × Unflagged l0_kept.old runs_kept.old }
    ensures { Flags (trees_in trees.now) (jobs_in jobs.now) (mark_of kind) job tree l0_kept.new runs_kept.new }
{
    let part = trees.part(tree);
    let entries = jobs.part(job);
    let destination = destination_of(kind, jobs.specs[3 * job + 1]);
    flag_rows(
        trees.l0_ids,
        part.first_row,
        part.rows,
        &jobs.sources,
        entries,
        l0_kept,
    );
    flag_runs(
        trees.run_ids,
        part.first_run,
        part.runs,
        &jobs.sources,
        entries,
        destination,
        runs_kept,
    );
}
