// Counting by the ones of a mask.
#![tactic(auto)]

ghost use Rattle.std.specs.Prelude.{◌≡◌, ◌/◌, ◌%◌, ◌^◌, ◌<◌};
ghost use Rattle.std.specs.Int.Count.{ones};
ghost use Rattle.counting.specs.Scaffold.{NthOne};

// How many digits of m are 1.
pub fn ones_of(m: u64) -> u64
    ensures { result ≡ ones m }
{
    u64::from(m.count_ones())
}

pub fn power_of_two(i: u64) -> u64
    requires { i < 64 }
    ensures { result ≡ 2 ^ i }
{
    1 << i
}

// The i lowest digits of m.
pub fn low(m: u64, i: u64) -> u64
    requires { i < 64 }
    ensures { result ≡ m % 2 ^ i }
{
    m % power_of_two(i)
}

// k over n, both of 32 digits: a division that costs less.
pub fn quotient(k: u64, n: u64) -> u64
    requires { (k < 2 ^ 32) × (0 < n) × (n < 2 ^ 32) }
    ensures { result ≡ k / n }
{
    u64::from(k as u32 / n as u32)
}

// Of each number below 16, how many digits are 1, four digits each; and the places of those digits, two digits each.
const ONES: u64 = 0x4332_3221_3221_2110;

const PLACES_BELOW_8: u64 = 0x2409_0802_0401_0000;

const PLACES_FROM_8: u64 = 0xe439_380e_340d_0c03;

fn ones_of_four(x: u64) -> u64
    requires { x < 16 }
    ensures { (result ≡ ones x) × (result < 16) }
{
    (ONES >> (4 * x)) % 16
}

// The place of the k-th digit that is 1, among four.
fn nth_of_four(x: u64, k: u64) -> u64
    requires { (x < 16) × (k < ones x) }
    ensures { NthOne x k result × (result < 4) }
{
    let at = 8 * (x % 8) + 2 * k;
    if x < 8 {
        (PLACES_BELOW_8 >> at) % 4
    } else {
        (PLACES_FROM_8 >> at) % 4
    }
}

// The place of the k-th digit of m that is 1, counted from 0 and from the lowest: four digits at a time.
pub fn nth_one(m: u64, k: u64) -> u64
    requires { k < ones m }
    ensures { NthOne m k result }
{
    let mut rest = m;
    let mut left = k;
    for i in 0..16 {
        let four = rest % 16;
        let n = ones_of_four(four);
        if left < n {
            return 4 * i + nth_of_four(four, left);
        }
        left -= n;
        rest /= 16;
    }
    0
}
