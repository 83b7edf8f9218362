// "The adoption table (local status against remote status)".
ghost use Rattle.std.specs.Prelude.{◌≡◌, [], ◌<◌, eqb, get_or};
ghost use Rattle.rules.specs.Jobs.{adoption};

// A row for absent, then one for each local status from 0 to 5; in it 1 where the remote status is adopted.
const ADOPTION: [[u8; 6]; 7] = [
    [1, 0, 0, 1, 1, 1],
    [0, 0, 0, 1, 0, 0],
    [0, 0, 1, 1, 0, 0],
    [0, 1, 1, 1, 0, 0],
    [0, 0, 0, 1, 0, 0],
    [0, 0, 0, 0, 0, 0],
    [0, 0, 0, 0, 0, 0],
];

// Whether a remote job of this status is adopted: row 0 where no local job has its id, else one above the local status.
pub fn adopts(row: usize, remote: usize) -> bool
    requires { (row < 7) × (remote < 6) }
    ensures { result ≡ eqb (get_or (get_or adoption row []) remote 0) 1 }
{
    ADOPTION[row][remote] == 1
}
