// The movers of rows in a slice of numbers: row i of width w from number w * i on. "Rows stand packed from the front"; "Places
// that a call frees hold zeros; other unused places keep their bytes."
ghost use Rattle.std.specs.Prelude.{◌≡◌, ◌+◌, ◌*◌, ◌≤◌, length, take, replicate};
ghost use Rattle.std.proofs.Math.Seq.{paste};
ghost use Rattle.rules.specs.Lent.{laid_with};
ghost use Rattle.rows.specs.Movers.{kept, opened, closed};

// The numbers that rows consist of.
pub trait Number: Copy {
    const ZERO: Self;

    ghost ZERO: { Self };
}

impl Number for u8 {
    const ZERO: u8 = 0;

    ghost ZERO = { 0 };
}

impl Number for u32 {
    const ZERO: u32 = 0;

    ghost ZERO = { 0 };
}

impl Number for u64 {
    const ZERO: u64 = 0;

    ghost ZERO = { 0 };
}

// Writes n zeros from number `at` on: by itself, since no proof closes for std's `fill`, which asks for a law of the clones of T.
fn clear<T: Number>(a: &mut [T], at: usize, n: usize)
    requires { at + n ≤ length a.old }
    ensures { a.new ≡ paste a.old at (replicate n T.ZERO) n }
{
    for k in 0..n {
        a[at + k] = T::ZERO;
    }
}

// Keeps those of the n rows in use whose mark is not 0.
pub fn keep_rows<T: Number>(col: &mut [T], w: usize, n: usize, marks: &[u8])
    requires { (n ≤ length marks.now) × (w * n ≤ length col.old) }
    ensures { col.new ≡ laid_with T.ZERO (w * n) (kept w (take n marks.now) col.old) col.old }
{
    let mut from = 0;
    let mut to = 0;
    for i in 0..n {
        if marks[i] != 0 {
            col.copy_within(from..from + w, to);
            to += w;
        }
        from += w;
    }
    clear(col, to, from - to);
}

// Puts k rows of `new` before row `at` of the n rows in use.
pub fn open_rows<T: Number>(col: &mut [T], w: usize, n: usize, at: usize, new: &[T], k: usize)
    requires { (at ≤ n) × (w * (n + k) ≤ length col.old) × (w * k ≤ length new.now) }
    ensures { col.new ≡ laid_with T.ZERO (w * n) (opened w n at new.now k col.old) col.old }
{
    let from = w * at;
    let gap = w * k;
    let end = w * n;
    col.copy_within(from..end, from + gap);
    col[from..from + gap].copy_from_slice(&new[..gap]);
}

// Takes k rows from row `at` on out of the n rows in use.
pub fn close_rows<T: Number>(col: &mut [T], w: usize, n: usize, at: usize, k: usize)
    requires { (at + k ≤ n) × (w * n ≤ length col.old) }
    ensures { col.new ≡ laid_with T.ZERO (w * n) (closed w n at k col.old) col.old }
{
    let to = w * at;
    let from = w * (at + k);
    let rest = w * (n - (at + k));
    col.copy_within(from..from + rest, to);
    clear(col, to + rest, from - to);
}
