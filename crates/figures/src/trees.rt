// Small trees.
use lent::trees::Trees;

// A root with the first `views` of 01's a, b, c, d, which are the views 1 to 4 of the SSTs 21 to 24, of size 1; the others lie
// in places that are not used.
fn root_of_views(views: u32) -> Trees {
    let mut rows = [0; 96];
    rows[1] = views;
    let mut l0_ids = [0; 2048];
    l0_ids[..16].copy_from_slice(&[0, 1, 0, 21, 0, 2, 0, 22, 0, 3, 0, 23, 0, 4, 0, 24]);
    Trees {
        count: 1,
        rows,
        watermark_marks: [0; 64],
        watermarks: [0; 128],
        l0_ids,
        l0_sizes: [1; 512],
        run_ids: [0; 512],
        run_sizes: [0; 512],
    }
}

// A root alone, with so many views and a run of each size, numbered downwards from `first`.
pub fn root(views: u32, first: u32, sizes: &[u64]) -> Trees {
    let mut trees = root_of_views(views);
    let n = sizes.len();
    if n > 512 {
        return trees;
    }
    trees.rows[2] = n as u32;
    trees.run_sizes[..n].copy_from_slice(sizes);
    let mut run = first;
    for id in trees.run_ids[..n].iter_mut() {
        *id = run;
        run = run.wrapping_sub(1);
    }
    trees
}

// The runs of a root alone, parted: the first stay there, the rest are those of a second tree.
pub fn parted(mut trees: Trees, stay: u32, prefix: u32, rest: u32) -> Trees {
    trees.count = 2;
    trees.rows[2] = stay;
    trees.rows[3] = prefix;
    trees.rows[5] = rest;
    trees
}
