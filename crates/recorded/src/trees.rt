// The tables of the trees: read and changed.
use crate::reader::Reader;
use lent::trees::Trees;

// The byte that unused places hold, the count, and the seven slices.
pub fn read_trees(reader: &mut Reader) -> Trees {
    let unused = reader.number();
    Trees {
        count: reader.count(),
        rows: reader.table(unused),
        watermark_marks: reader.table(unused),
        watermarks: reader.table(unused),
        l0_ids: reader.table(unused),
        l0_sizes: reader.table(unused),
        run_ids: reader.table(unused),
        run_sizes: reader.table(unused),
    }
}

// Makes the changes that are written here.
pub fn change_trees(reader: &mut Reader, trees: &mut Trees) {
    reader.change(&mut trees.rows);
    reader.change(&mut trees.watermark_marks);
    reader.change(&mut trees.watermarks);
    reader.change(&mut trees.l0_ids);
    reader.change(&mut trees.l0_sizes);
    reader.change(&mut trees.run_ids);
    reader.change(&mut trees.run_sizes);
}
