// The transpose of a matrix of 64 words. Each exchange puts word i and word i + 32 beside one another, and exchanges the blocks of
// `s` digits that lie across: after six of them, with s = 32, 16, 8, 4, 2, 1, every digit stands where it belongs.
ghost use Rattle.std.specs.Prelude.{◌+◌, ◌≤◌, ◌<◌, length};
ghost use Rattle.bit_matrix.specs.Exchange.{Mask, Exchanged};
ghost use Rattle.bit_matrix.specs.Matrix.{side, Transposed};

// the lower one of every two blocks of 32, 16, 8, 4, 2 digits and of one digit
const LOWER_32: u64 = 0x00000000ffffffff;

const LOWER_16: u64 = 0x0000ffff0000ffff;

const LOWER_8: u64 = 0x00ff00ff00ff00ff;

const LOWER_4: u64 = 0x0f0f0f0f0f0f0f0f;

const LOWER_2: u64 = 0x3333333333333333;

const LOWER_1: u64 = 0x5555555555555555;

// one exchange of blocks of s digits
fn exchange(from: &[u64], at: usize, to: &mut [u64], s: u32, mask: u64)
    requires mask { Mask s mask × (s < side) }
    requires side_in_bounds { (at + side ≤ length from.now) × (side ≤ length to.old) }
    ensures { Exchanged s mask side from.now at to.new }
{
    for i in 0..32 {
        let low = from[at + i];
        let high = from[at + i + 32];
        let a = low & mask;
        let b = high & mask;
        to[2 * i] = a | (b << s);
        to[2 * i + 1] = ((low - a) >> s) | (high - b);
    }
}

// the transpose of the matrix whose rows are the 64 words of `from` from an index on, by itself: so its loops become vectors
#[inline(never)]
pub fn transpose(from: &[u64], at: usize, to: &mut [u64], spare: &mut [u64])
    requires { (at + side ≤ length from.now) × ((side ≤ length to.old) × (side ≤ length spare.old)) }
    ensures { Transposed from.now at to.new }
{
    exchange(from, at, spare, 32, LOWER_32);
    exchange(spare, 0, to, 16, LOWER_16);
    exchange(to, 0, spare, 8, LOWER_8);
    exchange(spare, 0, to, 4, LOWER_4);
    exchange(to, 0, spare, 2, LOWER_2);
    exchange(spare, 0, to, 1, LOWER_1);
}
