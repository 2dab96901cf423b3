// Whether a label was used before: labels are compared only where the hash was seen.
ghost use Rattle.std.specs.Prelude.{◌≡◌, ℕ, ◌≤◌, ◌<◌, ◌+◌, length, drop, get_or};
ghost use Rattle.wire.specs.SheetFormat.{used, name_of};
ghost use Rattle.tables.specs.RecordsIn.{records_in};
ghost use Rattle.labels.specs.LabelHash.{label_hashes, label_hash, Seen, AllSeen};
ghost use Rattle.labels.specs.WholeName.{WholeName, AllWhole};

use crate::same::same_label;
use wire::bytes;

// How many hashes labels can have: a table of one entry for each hash has this length.
pub const LABEL_HASHES: usize = 2048;

// the label of the name whose record stands at an offset
pub fn label_of(s: &[u8], at: usize) -> &[u8]
    requires { WholeName s.now at }
    ensures { result.now ≡ (name_of (drop at s.now)).label }
{
    let end = at + 2 + bytes::u16_at(s, at) as usize;
    &s[at + 6..end]
}

// whether one of the names whose records stand at these offsets has the label
fn used_before(s: &[u8], offsets: &[usize], label: &[u8]) -> bool
    requires { AllWhole s.now offsets.now (length offsets.now) }
    ensures { result ≡ used (records_in name_of s.now offsets.now (length offsets.now)) label.now }
{
    for at in offsets {
        if same_label(label_of(s, *at), label) {
            return true;
        }
    }
    false
}

// equal labels have the same hash
fn label_hash(label: &[u8]) -> usize
    ensures { (result ≡ label_hash label.now) × (result < label_hashes) }
{
    let mut hash = 0;
    for x in label {
        hash = (hash * 33 + *x as usize) % LABEL_HASHES;
    }
    hash
}

// The answer of `used_before`, where the hashes of the labels before are kept in `seen`: labels are compared only where the hash of
// this one was seen. Then it is kept too.
pub fn used_label(s: &[u8], offsets: &[usize], label: &[u8], seen: &mut [bool]) -> bool
    requires { AllWhole s.now offsets.now (length offsets.now) × ((label_hashes ≤ length seen.old)
        × AllSeen s.now seen.old offsets.now (length offsets.now)) }
    ensures { (result ≡ used (records_in name_of s.now offsets.now (length offsets.now)) label.now)
        × (AllSeen s.now seen.new offsets.now (length offsets.now) × Seen seen.new label.now) }
{
    let hash = label_hash(label);
    if !seen[hash] {
        seen[hash] = true;
        return false;
    }
    used_before(s, offsets, label)
}
