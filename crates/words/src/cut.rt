// Text cut at a byte, and what a line has besides its comment and the blanks around it.
ghost use Rattle.std.specs.Prelude.{◌≡◌, ◌<◌, [], ◌∷◌, length, MatchOption};
ghost use Rattle.words.specs.Lines.{pieces, is_blank, without_front, without_back, bare_of};

// The text up to the first `at`, and the text after it, if there is one.
#[tactic(auto, using(crate::proofs::Cuts::pieces_none))]
pub fn cut(text: &[u8], at: u8) -> (&[u8], Option<&[u8]>)
    ensures { MatchOption result.1 ((pieces at text.now ≡ result.0.now ∷ []) × (result.0.now ≡ text.now)) (λ rest. (pieces at text.now ≡ result.0.now ∷ pieces at rest.now) × (length rest.now < length text.now)) }
{
    match text.iter().position(|byte| *byte == at) {
        None => (text, None),
        Some(i) => (&text[..i], Some(&text[i + 1..])),
    }
}

// `trim_ascii` would take more for blanks: newlines and form feeds.
fn is_blank(byte: &u8) -> bool
    ensures { result ≡ is_blank byte.now }
{
    matches!(byte, b' ' | b'\t' | b'\r')
}

#[tactic(auto, using(crate::proofs::Cuts::front_blank))]
fn trim_start(text: &[u8]) -> &[u8]
    ensures { result.now ≡ without_front text.now }
{
    match text.iter().position(|byte| !is_blank(byte)) {
        None => &[],
        Some(first) => &text[first..],
    }
}

#[tactic(auto, using(crate::proofs::Cuts::back_blank))]
fn trim_end(text: &[u8]) -> &[u8]
    ensures { result.now ≡ without_back text.now }
{
    match text.iter().rposition(|byte| !is_blank(byte)) {
        None => &[],
        Some(last) => &text[..=last],
    }
}

// What a line says: neither its comment nor the blanks around the rest.
pub fn bare(line: &[u8]) -> &[u8]
    ensures { result.now ≡ bare_of line.now }
{
    let (said, _) = cut(line, b'#');
    trim_end(trim_start(said))
}
