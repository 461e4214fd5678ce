// The tag of sealed bytes. Tags are compared whole.
ghost use Rattle.std.specs.Prelude.{◌≡◌, ◌+◌, ◌<◌, ◌++◌, length, fold, bit_or, bit_xor, MatchOption};
ghost use Rattle.std.specs.List.{zip};
ghost use Rattle.std.specs.Str.{bytes_eq};

pub(crate) const TAG_LENGTH: usize = 8;

// Sealed bytes in their two parts, text and tag, where there are bytes enough for a tag.
#[tactic(auto, using(crate::proofs::Parts::joined))]
pub(crate) fn text_and_tag(sealed: &[u8]) -> Option<(&[u8], &[u8; TAG_LENGTH])>
    ensures { MatchOption result (length sealed.now < 8)
        (λ p. (p.0.now ++ p.1.now ≡ sealed.now) × (length p.0.now + 8 ≡ length sealed.now)) }
{
    sealed.split_last_chunk::<TAG_LENGTH>()
}

// All that differs in two tags, gathered in one byte.
fn difference(a: &[u8; TAG_LENGTH], b: &[u8; TAG_LENGTH]) -> u8
    ensures { result ≡ fold (λ d p. bit_or d (bit_xor p.0 p.1)) 0 (zip a.now b.now) }
{
    a.iter().zip(b).fold(0, |d, (x, y)| d | (x ^ y))
}

// Whether two tags are the same. Every byte is compared: `==` may stop at the first that differs.
#[tactic(auto, using(crate::proofs::Tags::nothing_differs))]
pub(crate) fn same_tag(a: &[u8; TAG_LENGTH], b: &[u8; TAG_LENGTH]) -> bool
    ensures { result ≡ bytes_eq a.now b.now }
{
    difference(a, b) == 0
}
