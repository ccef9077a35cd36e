// Whether bytes are a text, as a hex dump is. No accepted image is one: its first byte is 16 to 31.
#![tactic(auto)]

ghost use Rattle.std.specs.Prelude.{◌≡◌};
ghost use Rattle.printable.specs.Text.{in_text, all_in_text, is_text};

// A byte that a text may have.
#[tactic(auto, using(std::proofs::lemmas::Bool::Decides::nat_tests), unfolding(crate::specs::Text::in_text))]
fn in_text(b: u8) -> bool
    ensures { result ≡ in_text b }
{
    matches!(b, b'\t' | b'\n' | b'\r' | b' '..=b'~')
}

fn all_in_text(bytes: &[u8]) -> bool
    ensures { result ≡ all_in_text bytes.now }
{
    bytes.iter().all(|b| in_text(*b))
}

#[tactic(auto, using(std::proofs::lemmas::Bool::Decides::nat_tests), unfolding(crate::specs::Text::is_text))]
pub fn is_text(bytes: &[u8]) -> bool
    ensures { result ≡ is_text bytes.now }
{
    !bytes.is_empty() && all_in_text(bytes)
}
