//! The bytes of a page.
ghost use Rattle.std.specs.Prelude.{◌≡◌, ◌+◌, ◌<◌, ◌≤◌, ◌++◌, ◌*◌, ◌^◌, length, replicate, sum, vec_len, vec_capacity};
ghost use Rattle.page_cache.specs.Bytes.{filled};

/// How many bytes a page has.
pub(crate) const PAGE: usize = 4096;

/// The sum of some bytes.
pub(crate) fn sum(bytes: &[u8]) -> u64
    requires { length bytes.now ≤ 4096 }
    ensures { result ≡ sum bytes.now }
{
    let total: u32 = bytes.iter().map(|byte| u32::from(*byte)).sum();
    u64::from(total)
}

/// Writes one byte from a place on up to another.
pub(crate) fn fill(bytes: &mut [u8], from: usize, to: usize, byte: u8)
    requires order { from ≤ to }
    requires within { to ≤ length bytes.old }
    ensures value { bytes.new ≡ filled bytes.old from to byte }
    ensures len { length bytes.new ≡ length bytes.old }
{
    bytes[from..to].fill(byte);
}

/// Writes one byte all over.
pub(crate) fn fill_all(bytes: &mut [u8], byte: u8)
    ensures value { bytes.new ≡ replicate (length bytes.old) byte }
    ensures len { length bytes.new ≡ length bytes.old }
{
    bytes.fill(byte);
}

/// The sum of so many bytes that are all this one.
pub(crate) fn sum_of(count: usize, byte: u8) -> u64
    requires { count ≤ 4096 }
    ensures value { result ≡ count * byte }
    ensures small { result < 2 ^ 20 }
{
    count as u64 * u64::from(byte)
}

/// Puts one byte so many times behind a run, which has room for that.
pub(crate) fn append(run: &mut Vec<u8>, count: usize, byte: u8)
    requires { vec_len run.old + count ≤ vec_capacity run.old }
    ensures items { run.new.items ≡ run.old.items ++ replicate count byte }
    ensures len { vec_len run.new ≡ vec_len run.old + count }
    ensures capacity { vec_capacity run.old ≤ vec_capacity run.new }
{
    let _ = run.resize(run.len() + count, byte);
}
