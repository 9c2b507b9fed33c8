//! A few bytes with zeros around them, so that vectors read them whole.
#![tactic(auto, using(crate::proofs::lemmas::vectors::Windows::copies))]

ghost use Rattle.std.specs.Prelude.{◌≡◌, ◌+◌, ◌*◌, ◌≤◌, ◌<◌, ℕ, length, slice_index};

/// Copies the bytes into zeros, from index `from` on.
///
/// Few bytes are copied by quarters, because vectors that read the copy at once then wait for fewer
/// stores than after a call of `memcpy`.
#[inline(always)]
pub fn put_in_zeros(bytes: &[u8], window: &mut [u8], from: usize)
    requires zeros { (i : ℕ) → slice_index window.old i ≡ 0 }
    requires room { from + length bytes.now ≤ length window.old }
    ensures before { (i : ℕ) → i < from → slice_index window.new i ≡ 0 }
    ensures copied { (i : ℕ) → slice_index window.new (from + i) ≡ slice_index bytes.now i }
    ensures len { length window.new ≡ length window.old }
{
    let len = bytes.len();
    if len < 2 || 64 < len {
        put_part(bytes, window, from, 0, len);
    } else if len < 8 {
        put_quarters::<2>(bytes, window, from);
    } else if len <= 32 {
        put_quarters::<8>(bytes, window, from);
    } else {
        put_quarters::<16>(bytes, window, from);
    }
}

/// Copies N to 4 * N bytes into zeros, as [`put_in_zeros`], but by four copies of N bytes. The
/// copies may overlap, so there is no branch on the length.
#[inline(always)]
fn put_quarters<const N: usize>(bytes: &[u8], window: &mut [u8], from: usize)
    requires zeros { (i : ℕ) → slice_index window.old i ≡ 0 }
    requires room { from + length bytes.now ≤ length window.old }
    requires least { N ≤ length bytes.now }
    requires most { length bytes.now ≤ 4 * N }
    ensures before { (i : ℕ) → i < from → slice_index window.new i ≡ 0 }
    ensures copied { (i : ℕ) → slice_index window.new (from + i) ≡ slice_index bytes.now i }
    ensures len { length window.new ≡ length window.old }
{
    let last = bytes.len() - N;
    let step = N.min(last);
    put_part(bytes, window, from, 0, N);
    put_part(bytes, window, from, step, N);
    put_part(bytes, window, from, last - step, N);
    put_part(bytes, window, from, last, N);
}

/// Copies `count` bytes from index `at` on to the same offset after index `from`.
#[inline(always)]
fn put_part(bytes: &[u8], window: &mut [u8], from: usize, at: usize, count: usize)
    requires part { at + count ≤ length bytes.now }
    requires room { from + length bytes.now ≤ length window.old }
    ensures before { (i : ℕ) → i < from → slice_index window.new i ≡ slice_index window.old i }
    ensures copied { (i : ℕ) → at ≤ i → i < at + count
        → slice_index window.new (from + i) ≡ slice_index bytes.now i }
    ensures kept { (i : ℕ) → slice_index window.old (from + i) ≡ slice_index bytes.now i
        → slice_index window.new (from + i) ≡ slice_index bytes.now i }
    ensures len { length window.new ≡ length window.old }
{
    window[from + at..from + at + count].copy_from_slice(&bytes[at..at + count]);
}
