// Reading: a byte's place, keys and words, decimal numbers.
ghost use Rattle.std.specs.Prelude.{◌≡◌, unwrap_or};
ghost use Rattle.text.specs.Text.{not_a_number, digit as digitOf, number as number_of, starts_with, is_word};
ghost use Rattle.text.specs.Writing.{place_of};

// The place of the first such byte; the length where there is none.
pub fn find(text: &[u8], byte: u8) -> usize
    ensures { result ≡ place_of byte text.now }
{
    text.iter().position(|b| *b == byte).unwrap_or(text.len())
}

// Whether the text begins with a key.
#[tactic(auto, using(crate::proofs::Places::key_is))]
pub fn starts_with(text: &[u8], key: &[u8]) -> bool
    ensures { result ≡ starts_with key.now text.now }
{
    text.starts_with(key)
}

// Whether the text is that word and no more.
#[tactic(auto, using(crate::proofs::Keys::word_equal))]
pub fn is_word(text: &[u8], word: &[u8]) -> bool
    ensures { result ≡ is_word word.now text.now }
{
    text == word
}

// A byte behind the digits of n; none where it is no digit, or where the number is above 4,294,967,295.
#[tactic(auto, unfolding(crate::specs::Text::digit))]
fn digit(n: u32, byte: u8) -> Option<u32>
    ensures { unwrap_or result not_a_number ≡ digitOf n byte }
{
    if !byte.is_ascii_digit() {
        return None;
    }
    n.checked_mul(10)?.checked_add((byte - b'0') as u32)
}

// A decimal number; none where the text is badly written, or the number above 4,294,967,295.
#[tactic(auto, using(crate::proofs::Places::number_empty, crate::proofs::Places::number_zero))]
pub fn number(text: &[u8]) -> Option<u32>
    ensures { unwrap_or result not_a_number ≡ number_of text.now }
{
    if text.is_empty() || (text[0] == b'0' && 1 < text.len()) {
        return None;
    }
    let mut n = 0;
    for byte in text {
        n = digit(n, *byte)?;
    }
    Some(n)
}
