// Which bytes a label may have.
ghost use Rattle.std.specs.Prelude.{◌≡◌};
ghost use Rattle.wire.specs.SheetFormat.{label_byte, label_bytes};

#[tactic(auto, using(std::proofs::lemmas::Bool::Decides::nat_tests), unfolding(wire::specs::SheetFormat::label_byte))]
fn label_byte(x: u8) -> bool
    ensures { result ≡ label_byte x }
{
    matches!(x, b'A'..=b'Z' | b'0'..=b'9' | b'-')
}

// Whether these may be the bytes of a label. All are looked at: a loop that may end early is not done 16 bytes at a time.
pub fn label_allowed(label: &[u8]) -> bool
    ensures { result ≡ label_bytes label.now }
{
    let mut allowed = true;
    for x in label {
        allowed &= label_byte(*x);
    }
    allowed
}
