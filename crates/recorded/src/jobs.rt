// The tables of the jobs: read and changed.
use crate::reader::Reader;
use lent::jobs::Jobs;

// The byte that unused places hold, the count, and the six slices.
pub fn read_jobs(reader: &mut Reader) -> Jobs {
    let unused = reader.number();
    Jobs {
        count: reader.count(),
        ids: reader.table(unused),
        marks: reader.table(unused),
        specs: reader.table(unused),
        source_marks: reader.table(unused),
        source_runs: reader.table(unused),
        source_views: reader.table(unused),
    }
}

// Makes the changes that are written here.
pub fn change_jobs(reader: &mut Reader, jobs: &mut Jobs) {
    reader.change(&mut jobs.ids);
    reader.change(&mut jobs.marks);
    reader.change(&mut jobs.specs);
    reader.change(&mut jobs.source_marks);
    reader.change(&mut jobs.source_runs);
    reader.change(&mut jobs.source_views);
}
