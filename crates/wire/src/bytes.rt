// Fields of two, four and eight bytes, low byte first, read from and stored into lent bytes.
ghost use Rattle.std.specs.Prelude.{◌≡◌, ◌+◌, ◌≤◌, ◌<◌, length};
ghost use Rattle.std.proofs.lemmas.List.Edits.{sets};
ghost use Rattle.wire.specs.Bytes.{u16_at, u32_at, le16, le32};
ghost use Rattle.wire.specs.U64.{u64_at, le64};

pub fn u16_at(s: &[u8], at: usize) -> u16
    requires { at + 1 < length s.now }
    ensures { result ≡ u16_at s.now at }
{
    u16::from_le_bytes([s[at], s[at + 1]])
}

pub fn u32_at(s: &[u8], at: usize) -> u32
    requires { at + 3 < length s.now }
    ensures { result ≡ u32_at s.now at }
{
    u32::from_le_bytes([s[at], s[at + 1], s[at + 2], s[at + 3]])
}

pub fn u64_at(s: &[u8], at: usize) -> u64
    requires { at + 7 < length s.now }
    ensures { result ≡ u64_at s.now at }
{
    u64::from_le_bytes([
        s[at],
        s[at + 1],
        s[at + 2],
        s[at + 3],
        s[at + 4],
        s[at + 5],
        s[at + 6],
        s[at + 7],
    ])
}

pub fn put_bytes(out: &mut [u8], at: usize, bytes: &[u8])
    requires { at + length bytes.now ≤ length out.old }
    ensures { out.new ≡ sets out.old at bytes.now }
{
    out[at..at + bytes.len()].copy_from_slice(bytes);
}

pub fn put_u16(out: &mut [u8], at: usize, x: u16)
    requires { at + 1 < length out.old }
    ensures { out.new ≡ sets out.old at (le16 x) }
{
    put_bytes(out, at, &x.to_le_bytes());
}

pub fn put_u32(out: &mut [u8], at: usize, x: u32)
    requires { at + 3 < length out.old }
    ensures { out.new ≡ sets out.old at (le32 x) }
{
    put_bytes(out, at, &x.to_le_bytes());
}

pub fn put_u64(out: &mut [u8], at: usize, x: u64)
    requires { at + 7 < length out.old }
    ensures { out.new ≡ sets out.old at (le64 x) }
{
    put_bytes(out, at, &x.to_le_bytes());
}
