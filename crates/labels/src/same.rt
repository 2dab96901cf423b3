// Whether two labels are the same.
ghost use Rattle.std.specs.Prelude.{◌≡◌, ◌≤◌, length};
ghost use Rattle.wire.specs.SheetFormat.{same_label};

use wire::bytes;

// by fields of eight bytes, the last of which ends at the last byte
fn same_by_u64(a: &[u8], b: &[u8]) -> bool
    requires { (8 ≤ length a.now) × (length a.now ≡ length b.now) }
    ensures { result ≡ same_label a.now b.now }
{
    let last = a.len() - 8;
    for i in (0..last).step_by(8) {
        if bytes::u64_at(a, i) != bytes::u64_at(b, i) {
            return false;
        }
    }
    bytes::u64_at(a, last) == bytes::u64_at(b, last)
}

// by the first four bytes and the last four, which are all of at most eight
fn same_by_u32(a: &[u8], b: &[u8]) -> bool
    requires { (4 ≤ length a.now) × ((length a.now ≤ 8) × (length a.now ≡ length b.now)) }
    ensures { result ≡ same_label a.now b.now }
{
    let last = a.len() - 4;
    bytes::u32_at(a, 0) == bytes::u32_at(b, 0) && bytes::u32_at(a, last) == bytes::u32_at(b, last)
}

// byte by byte
fn same_by_bytes(a: &[u8], b: &[u8]) -> bool
    requires { length a.now ≡ length b.now }
    ensures { result ≡ same_label a.now b.now }
{
    for (x, y) in a.iter().zip(b) {
        if x != y {
            return false;
        }
    }
    true
}

// Labels of one length are compared by the widest fields that they have.
pub fn same_label(a: &[u8], b: &[u8]) -> bool
    ensures { result ≡ same_label a.now b.now }
{
    if a.len() != b.len() {
        return false;
    }
    match a.len() {
        0..=3 => same_by_bytes(a, b),
        4..=7 => same_by_u32(a, b),
        _ => same_by_u64(a, b),
    }
}
