// Trees as text: each row and run with its size in brackets.
use crate::show::row;
use lent::trees::Trees;
use rows::bounds::column_sum;
use std::{fmt, io};

// Of each L0 row the low word of its view.
#[derive(Clone, Copy)]
struct Views<'a> {
    ids: &'a [u64],
    sizes: &'a [u64],
}

impl fmt::Display for Views<'_> {
    fn fmt<W: fmt::Write>(&self, f: &mut fmt::Formatter<W>) -> fmt::Result {
        if self.sizes.is_empty() {
            return write!(f, " none");
        }
        for (view, size) in self.ids.iter().skip(1).step_by(4).zip(self.sizes) {
            write!(f, " {view} ({size})")?;
        }
        Ok(())
    }
}

// Of more than four runs only the first and the last, and their number.
#[derive(Clone, Copy)]
struct Runs<'a> {
    ids: &'a [u32],
    sizes: &'a [u64],
}

impl fmt::Display for Runs<'_> {
    fn fmt<W: fmt::Write>(&self, f: &mut fmt::Formatter<W>) -> fmt::Result {
        let n = self.ids.len();
        if n == 0 {
            return write!(f, " none");
        }
        if let ([first, .., last], [first_size, .., last_size]) = (self.ids, self.sizes)
            && n > 4
        {
            return write!(
                f,
                " {first} ({first_size}) .. {last} ({last_size}), {n} in all"
            );
        }
        for (run, size) in self.ids.iter().zip(self.sizes) {
            write!(f, " {run} ({size})")?;
        }
        Ok(())
    }
}

// The low words of the view and of the SST, where they are present.
#[derive(Clone, Copy)]
struct Watermark {
    view: Option<u64>,
    sst: Option<u64>,
}

impl fmt::Display for Watermark {
    fn fmt<W: fmt::Write>(&self, f: &mut fmt::Formatter<W>) -> fmt::Result {
        match self.view {
            Some(view) => write!(f, " view {view}")?,
            None => write!(f, " none")?,
        }
        match self.sst {
            Some(sst) => write!(f, " SST {sst}"),
            None => Ok(()),
        }
    }
}

#[derive(Clone, Copy)]
struct Tree<'a> {
    prefix: u32,
    l0: Views<'a>,
    runs: Runs<'a>,
    watermark: Watermark,
}

impl fmt::Display for Tree<'_> {
    fn fmt<W: fmt::Write>(&self, f: &mut fmt::Formatter<W>) -> fmt::Result {
        write!(f, "prefix {}, L0{}", self.prefix, self.l0)?;
        write!(f, "; runs{}; watermark{}", self.runs, self.watermark)
    }
}

fn present(mark: u8, word: u64) -> Option<u64> {
    if mark == 1 { Some(word) } else { None }
}

// So many rows of `width` places each, from row `at` on, if there are.
fn part<T>(slice: &[T], width: usize, at: usize, n: usize) -> Option<&[T]> {
    let from = at.checked_mul(width)?;
    slice.get(from..from.checked_add(n.checked_mul(width)?)?)
}

// Tree t, whose rows and runs stand behind those of the trees before it.
fn tree_of(trees: &Trees, t: usize) -> Option<Tree<'_>> {
    if t >= 32 {
        return None;
    }
    let first_row = column_sum(&trees.rows, 1, t);
    let rows = trees.rows[3 * t + 1] as usize;
    let first_run = column_sum(&trees.rows, 2, t);
    let runs = trees.rows[3 * t + 2] as usize;
    Some(Tree {
        prefix: trees.rows[3 * t],
        l0: Views {
            ids: part(&trees.l0_ids, 4, first_row, rows)?,
            sizes: part(&trees.l0_sizes, 1, first_row, rows)?,
        },
        runs: Runs {
            ids: part(&trees.run_ids, 1, first_run, runs)?,
            sizes: part(&trees.run_sizes, 1, first_run, runs)?,
        },
        watermark: Watermark {
            view: present(trees.watermark_marks[2 * t], trees.watermarks[4 * t + 1]),
            sst: present(
                trees.watermark_marks[2 * t + 1],
                trees.watermarks[4 * t + 3],
            ),
        },
    })
}

// The first trees, each behind what 01 says of it.
pub fn show_trees(rt: &impl Print, expected: &[&str], trees: &Trees) -> io::Result<()> {
    for (t, tree) in expected.iter().enumerate() {
        show_tree(rt, *tree, trees, t)?;
    }
    Ok(())
}

fn show_tree(rt: &impl Print, expected: &str, trees: &Trees, t: usize) -> io::Result<()> {
    match tree_of(trees, t) {
        Some(tree) => row(rt, expected, &tree),
        None => row(rt, expected, &"no tree"),
    }
}
